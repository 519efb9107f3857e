// The list at a cut: every filled place as a unit in the byte stream form, kind rising, then id rising.
ghost use Rattle.std.specs.Prelude.{◌≡◌, true, ◌+◌, ◌*◌, ◌/◌, ◌≤◌, eqb, length, take};
ghost use Rattle.bitstream.specs.Outcome.{left, value, outcome_written};
ghost use Rattle.aps.specs.ApsSyntax.{number_of};
ghost use Rattle.aps.specs.Kinds.{most_bytes};
ghost use Rattle.aps.specs.Unit.{is_aps_header};
ghost use Rattle.aps_table.specs.declared.list.TheConstants.{LIST_BYTES};
ghost use Rattle.aps_table.specs.Places.{names, held, present, filled};
ghost use Rattle.aps_table.specs.List.{coded, entry, joined, listed, write_list};

use crate::places::{ALF_PLACES, HEADER_BYTES, LMCS_PLACES, PLACES, Place, SCALING_PLACES, Table};
use crate::table::own_head;
use aps::aps::{Alf, Lmcs, Scaling};
use aps::unit_header::UnitHeader;
use aps::write::{copy_out, write_nal};
use bitstream::Refusal;

// No list is longer: of each place a start code, a header and the RBSP with escapes put in.
pub const LIST_BYTES: usize = ALF_PLACES * (6 + Alf::MAX_BYTES * 3 / 2)
    + LMCS_PLACES * (6 + Lmcs::MAX_BYTES * 3 / 2)
    + SCALING_PLACES * (6 + Scaling::MAX_BYTES * 3 / 2);

// The list so far, in a buffer that has room for any: no heap is used.
#[derive(Drop)]
struct CutList {
    buffer: [u8; LIST_BYTES],
    len: usize,
    ghost within: { len ≤ LIST_BYTES },
}

impl CutList {
    ghost use Rattle.aps_table.specs.Inner.{so_far, written, most_listed, list_bytes};

    // Nothing is in it yet; its room is just what every list fits into.
    fn new() -> Self
        ensures empty { result.len ≡ 0 }
        ensures room { LIST_BYTES ≡ list_bytes }
    {
        CutList {
            buffer: [0; LIST_BYTES],
            len: 0,
        }
    }

    // An RBSP as a unit of a header after a start code, put at the end.
    fn put_unit(&mut self, header: UnitHeader, rbsp: &[u8]) -> Result<(), Refusal>
        requires { (self.old.len + (6 + length rbsp.now * 3 / 2) ≤ LIST_BYTES) × ((length rbsp.now ≤ most_bytes 2) × (is_aps_header header ≡ true)) }
        ensures { written result self.new ≡ joined (so_far self.old) (value (coded header rbsp.now) (length (coded header rbsp.now))) }
    {
        let start = self.len + 4;
        let n = write_nal(rbsp, header, &mut self.buffer[start..])?;
        self.buffer[self.len..start].copy_from_slice(&[0, 0, 0, 1]);
        self.len = start + n;
        Ok(())
    }

    // The set of a place, if it has one: with extension flag 0 it is written as the bytes that were read.
    fn put_place(&mut self, table: &Table, place: Place) -> Result<(), Refusal>
        requires { self.old.len + most_listed (number_of place.kind) ≤ LIST_BYTES }
        ensures { written result self.new ≡ joined (so_far self.old) (entry (held table.now (number_of place.kind) place.id)) }
    {
        let Some(own) = own_head(table, place) else {
            return Ok(());
        };
        let reading = own.set;
        if reading.value.aps_extension_flag {
            return Err(Refusal::Unsupported);
        }
        self.put_unit(own.header, &place.rbsp(table)[..reading.end / 8])
    }

    // All 20 places.
    fn put_all(&mut self, table: &Table) -> Result<(), Refusal>
        requires { self.old.len ≡ 0 }
        ensures { written result self.new ≡ listed names (held table.now) }
    {
        for index in 0..PLACES {
            self.put_place(table, Place::nth(index))?;
        }
        Ok(())
    }

    // Its bytes.
    fn bytes(&self) -> &[u8]
        ensures { result.now ≡ take self.now.len self.now.buffer }
    {
        &self.buffer[..self.len]
    }
}

// Whether a place holds a set; its RBSP's first byte tells most that do not.
fn is_held(table: &Table, place: Place) -> bool
    ensures { result ≡ eqb (present (held table.now (number_of place.kind) place.id)) 1 }
{
    if table[place.at() + HEADER_BYTES] != u8::from(place.kind) * 32 + place.id {
        return false;
    }
    own_head(table, place).is_some()
}

// No place holds one. By `all` its law speaks of a run over the range, and the proof would be longer than the loop's.
fn is_bare(table: &Table) -> bool
    ensures { result ≡ eqb (filled (held table.now)) 0 }
{
    for index in 0..PLACES {
        if is_held(table, Place::nth(index)) {
            return false;
        }
    }
    true
}

// The list out of its buffer. A call of its own: inlined, the buffer was cleared before the table was looked at.
#[inline(never)]
fn write_whole(table: &Table, out: &mut [u8]) -> Result<usize, Refusal>
    ensures answer { outcome_written result out.new ≡ write_list table.now out.old }
    ensures bytes { out.new ≡ left out.old (write_list table.now out.old) }
{
    let mut list = CutList::new();
    list.put_all(table)?;
    copy_out(list.bytes(), out)
}

// The list: 3; 2; 5. That of a table without a set needs no buffer.
pub fn write_list(table: &Table, out: &mut [u8]) -> Result<usize, Refusal>
    ensures answer { outcome_written result out.new ≡ write_list table.now out.old }
    ensures bytes { out.new ≡ left out.old (write_list table.now out.old) }
{
    if is_bare(table) {
        return Ok(0);
    }
    write_whole(table, out)
}
