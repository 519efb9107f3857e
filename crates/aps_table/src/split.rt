// The split of a stream into units, H.266 Annex B.
ghost use Rattle.std.specs.Prelude.{◌≡◌, ◌≤◌, length};

use crate::unit_end::unit_end;
use bitstream::{Input, Refusal};

// A place in a stream. The bytes and not an Input, which would be named through at each clause and proof; an iterator of units would give a Result to be told apart at each.
#[derive(Clone, Copy)]
pub(crate) struct Cursor<'a> {
    pub(crate) bytes: &'a [u8],
    pub(crate) at: usize,
    ghost short: { length bytes.now ≤ 65536 },
    ghost inside: { at ≤ length bytes.now },
}

// A unit of a stream, and the place after it.
#[derive(Clone, Copy)]
pub(crate) struct Unit<'a> {
    pub(crate) bytes: &'a [u8],
    pub(crate) rest: Cursor<'a>,
}

impl<'a> Cursor<'a> {
    ghost use Rattle.aps_table.specs.Split.{split};
    ghost use Rattle.aps_table.specs.Inner.{Skipped, Follows, Checks};

    // The start of a stream.
    pub(crate) fn new(stream: Input<'a>) -> Self
        ensures { (result.bytes.now ≡ stream.entry.bytes.now) × (result.at ≡ 0) }
    {
        Cursor {
            bytes: stream.bytes,
            at: 0,
        }
    }

    // The first place from here on that holds no zero byte, or the end.
    fn skip_zeros(self) -> usize
        ensures { Skipped self.entry.bytes.now self.entry.at result }
    {
        let s = self.bytes;
        s[self.at..]
            .iter()
            .position(|&b| b != 0)
            .map_or(s.len(), |n| self.at + n)
    }

    // What stands from here on, outside of a unit: a unit, or the end. 2: a byte that may not stand there.
    pub(crate) fn next_unit(self) -> Result<Option<Unit<'a>>, Refusal>
        ensures { Follows self.entry.bytes.now self.entry.at result }
    {
        let s = self.bytes;
        let from = self.at;
        let i = self.skip_zeros();
        if i == s.len() {
            return Ok(None);
        }
        if s[i] != 1 {
            return Err(Refusal::InvalidData);
        }
        if i - from < 2 {
            return Err(Refusal::InvalidData);
        }
        let start = i + 1;
        let end = start + unit_end(&s[start..]);
        Ok(Some(Unit {
            bytes: &s[start..end],
            rest: Cursor { bytes: s, at: end },
        }))
    }

    // The split checked whole: 2 where it is refused.
    pub(crate) fn check_split(stream: Input<'_>) -> Result<(), Refusal>
        ensures { Checks (split stream.entry.bytes.now) result }
    {
        let mut rest = Cursor::new(stream);
        // The next place is what the step gives; no index is counted.
        while let Some(unit) = rest.next_unit()? {
            rest = unit.rest;
        }
        Ok(())
    }
}
