// What is collected of a unit: its first bytes, and its length as far as it is counted.
ghost use Rattle.std.specs.Prelude.{◌≡◌};
ghost use Rattle.aps_table.specs.Calls.{single};
ghost use Rattle.aps_table.specs.Answers.{unit_answer};
ghost use Rattle.recording.specs.Recorded.{is_other};
ghost use Rattle.recording.specs.Collected.{kept_verdict, kept_taken};
ghost use Rattle.recording.specs.Feeding.{collected, with_zeros, short_of};
ghost use Rattle.recording.specs.Inner.{collected_all, filled};

use aps::LONGEST_RBSP;
use aps::unit_header::is_aps;
use aps_table::places::Table;
use aps_table::table::{Taken, take_unit};
use bitstream::{LONGEST_INPUT, Refusal};

// A unit whose RBSP is at most 2,048 bytes has at most 3,074: header, RBSP and an escape after every second byte of it.
pub(crate) const COLLECTED: usize = 3075;

// A length is counted up to the first that is too long for a unit.
const COUNTED: u32 = 65537;

// How long the unit is, and its first bytes.
#[repr(C)]
#[derive(Clone, Copy)]
pub(crate) struct Collected {
    pub(crate) size: u32,
    pub(crate) head: [u8; COLLECTED],
}

// A unit of another type than an APS's, whatever its length.
#[tactic(auto, unfolding(crate::specs::Recorded::is_other))]
fn is_other(unit: &[u8]) -> bool
    ensures { result ≡ is_other unit.now }
{
    if unit.len() < 2 {
        return false;
    }
    !is_aps(unit[1] / 8)
}

impl Collected {
    // One byte more.
    #[tactic(auto, unfolding(crate::specs::Feeding::collected))]
    fn push(&mut self, b: u8)
        ensures { self.new ≡ collected b self.old }
    {
        let size = self.size;
        if size < COLLECTED as u32 {
            self.head[size as usize] = b;
        }
        self.size = if size < COUNTED { size + 1 } else { COUNTED };
    }

    // Zero bytes, more than two of which count as two, and then a byte.
    #[tactic(auto, unfolding(crate::specs::Feeding::with_zeros))]
    pub(crate) fn push_after(&mut self, zeros: u8, b: u8)
        ensures { self.new ≡ with_zeros zeros b self.old }
    {
        match zeros {
            0 => self.push(b),
            1 => {
                self.push(0);
                self.push(b);
            }
            _ => {
                self.push(0);
                self.push(0);
                self.push(b);
            }
        }
    }

    // The first bytes with bytes more, as far as there is room.
    fn fill(&mut self, bytes: &[u8])
        ensures { self.new ≡ filled bytes.now self.old }
    {
        let size = self.size as usize;
        if size >= COLLECTED {
            return;
        }
        let n = bytes.len().min(COLLECTED - size);
        self.head[size..size + n].copy_from_slice(&bytes[..n]);
    }

    // Bytes more, at once.
    pub(crate) fn push_all(&mut self, bytes: &[u8])
        ensures { self.new ≡ collected_all bytes.now self.old }
    {
        if bytes.is_empty() {
            return;
        }
        let size = self.size as usize + bytes.len();
        self.fill(bytes);
        self.size = size.min(COUNTED as usize) as u32;
    }

    // The unit taken into the table: passed over; 4; then as a unit alone.
    pub(crate) fn take(&self, table: &mut Table) -> Result<Taken, Refusal>
        ensures answer { unit_answer result ≡ single (kept_verdict (short_of self.now)) }
        ensures table { table.new ≡ kept_taken (short_of self.now) table.old }
    {
        let size = self.size as usize;
        let unit = &self.head[..size.min(COLLECTED)];
        if is_other(unit) {
            return Ok(Taken::Passed);
        }
        if size > LONGEST_INPUT {
            return Err(Refusal::InputTooLong);
        }
        let mut work = [0u8; LONGEST_RBSP];
        take_unit(table, unit, &mut work)
    }
}
