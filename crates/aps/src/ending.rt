// What follows the payload of a set: the extension flag, and where the RBSP ends.
ghost use Rattle.std.specs.Prelude.{◌≡◌};
ghost use Rattle.bitstream.specs.Outcome.{map_outcome};
ghost use Rattle.aps.specs.Inner.{ended, extended};
ghost use Rattle.aps.specs.Reading.{outcome_reading};

use crate::aps::{ApsHead, Reading};
use crate::reader::Reader;
use bitstream::Refusal;

// The head with its extension flag, and where what closes the RBSP ends: with extension flag 1 nothing more is read.
pub(crate) fn close_rbsp(mut reader: Reader, head: ApsHead) -> Result<Reading<ApsHead>, Refusal>
    ensures { outcome_reading result ≡ map_outcome (extended head) (ended reader.entry.bytes.now reader.entry.at) }
{
    let extension = reader.flag()?;
    if !extension {
        reader.trailing()?;
    }
    Ok(Reading {
        value: ApsHead {
            aps_extension_flag: extension,
            ..head
        },
        end: reader.at(),
    })
}
