// The start of a set, read up to its payload.
ghost use Rattle.std.specs.Prelude.{◌≡◌};
ghost use Rattle.aps.specs.Heading.{Heading};

use crate::aps::ApsHead;
use crate::reader::Reader;

// The head of a set that was opened, with the extension flag still to be read, and the reader of what follows it.
#[derive(Clone, Copy)]
pub(crate) struct Opened<'a> {
    pub(crate) reader: Reader<'a>,
    pub(crate) head: ApsHead,
    ghost first: { reader.at ≡ 9 },
    ghost heading: { Heading reader.bytes.now head },
}
