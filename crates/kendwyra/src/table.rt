// The calls of the table, which is 23,228 bytes that the caller keeps.
ghost use Rattle.std.specs.Prelude.{◌≡◌, length, [], ◌∷◌};
ghost use Rattle.std.proofs.lemmas.List.Edits.{sets};
ghost use Rattle.bitstream.specs.Outcome.{left};
ghost use Rattle.aps.specs.Unit.{work_after};
ghost use Rattle.aps_table.specs.Places.{new_table, looked_up};
ghost use Rattle.aps_table.specs.Calls.{stream, alone, table_after, answer_to, work_after_stream};
ghost use Rattle.aps_table.specs.List.{write_list};
ghost use Rattle.kendwyra.specs.Codes.{code, place_left, looked_code, looked_left, header_held, set_held, answer_code, counts_left};
ghost use Rattle.kendwyra.specs.Structs.{head_struct};

use crate::calls::sized;
use crate::heads::put_head;
use crate::structs::ApsHead;
use aps::unit_header::UnitHeader;
use aps_table::list::write_list;
use aps_table::places::{Table, new_table};
use aps_table::table::{Counts, Taken, lookup_head, take_stream, take_unit};

// A unit that is neither taken nor refused.
pub const PASSED_OVER: u32 = 256;

// Every place empty, whatever the bytes were.
#[unsafe(no_mangle)]
pub extern "C" fn aps_table_new(table: &mut Table)
    ensures { table.new ≡ new_table }
{
    *table = new_table();
}

// A unit alone: 0 accepted, 256 passed over, or the refusal's number.
#[tactic(auto, unfolding(crate::specs::Codes::answer_code))]
#[unsafe(no_mangle)]
pub extern "C" fn aps_take_unit(table: &mut Table, unit: &[u8], work: &mut [u8]) -> u32
    ensures code { result ≡ answer_code (answer_to (alone unit.now (length work.old))) }
    ensures table { table.new ≡ table_after (alone unit.now (length work.old)) table.old }
    ensures work { work.new ≡ work_after unit.now work.old }
{
    match take_unit(table, unit, work) {
        Ok(Taken::Accepted) => 0,
        Ok(Taken::Passed) => PASSED_OVER,
        Err(why) => why.into(),
    }
}

fn put_counts(c: Counts, counts: &mut [u64; 3])
    ensures { counts.new ≡ sets counts.old 0 (c.accepted ∷ c.refused ∷ c.passed ∷ []) }
{
    *counts = [c.accepted as u64, c.refused as u64, c.passed as u64];
}

// A stream: how many units were accepted, refused and passed over.
#[tactic(auto, unfolding(crate::specs::Codes::answer_code, crate::specs::Codes::counts_left))]
#[unsafe(no_mangle)]
pub extern "C" fn aps_take_stream(
    table: &mut Table,
    bytes: &[u8],
    work: &mut [u8],
    counts: &mut [u64; 3],
) -> u32
    ensures code { result ≡ answer_code (answer_to (stream bytes.now (length work.old))) }
    ensures counts { counts.new
        ≡ counts_left (answer_to (stream bytes.now (length work.old))) counts.old }
    ensures table { table.new ≡ table_after (stream bytes.now (length work.old)) table.old }
    ensures work { work.new ≡ work_after_stream bytes.now work.old }
{
    match take_stream(table, bytes, work) {
        Ok(c) => {
            put_counts(c, counts);
            0
        }
        Err(why) => why.into(),
    }
}

// Of the set held for a kind and an id the kind, the id and the flags, and its unit's header. C passes a kind's number.
#[tactic(auto, unfolding(crate::specs::Codes::looked_code, crate::specs::Codes::looked_left))]
#[unsafe(no_mangle)]
pub extern "C" fn aps_head_lookup(
    table: &Table,
    kind: u8,
    id: u8,
    head: &mut ApsHead,
    header: &mut UnitHeader,
) -> u32
    ensures code { result ≡ looked_code (looked_up table.now kind id) }
    ensures head { head.new ≡ looked_left (set_held head_struct) (looked_up table.now kind id) head.old }
    ensures header { header.new ≡ looked_left header_held (looked_up table.now kind id) header.old }
{
    match lookup_head(table, kind, id) {
        Ok(found) => {
            put_head(&found.set, head);
            *header = found.header;
            0
        }
        Err(why) => why.into(),
    }
}

// The list at a cut at the start of out, and its length.
#[unsafe(no_mangle)]
pub extern "C" fn aps_write_list(table: &Table, out: &mut [u8], len: &mut [u64; 1]) -> u32
    ensures code { result ≡ code (write_list table.now out.old) }
    ensures out { out.new ≡ left out.old (write_list table.now out.old) }
    ensures len { len.new ≡ place_left (write_list table.now out.old) len.old }
{
    sized(write_list(table, out), len)
}
