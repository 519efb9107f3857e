// The calls of one kind by C's struct of it: 0 with the answer in what is lent, or a refusal's number with all as it was.
ghost use Rattle.std.specs.Prelude.{◌≡◌, List, ℕ, length};
ghost use Rattle.bitstream.specs.Outcome.{Outcome, left, map_outcome, outcome_written};
ghost use Rattle.aps.specs.ApsSyntax.{number_of};
ghost use Rattle.aps.specs.Rbsp.{parse_aps_rbsp};
ghost use Rattle.aps.specs.Unit.{parse_aps, work_after};
ghost use Rattle.aps.specs.Reading.{outcome_reading, part_by};
ghost use Rattle.aps.specs.Writing.{write_aps, write_aps_nal};
ghost use Rattle.aps_table.specs.Places.{looked_up};
ghost use Rattle.kendwyra.specs.Codes.{code, value_left, place_left, of_kind, looked_code, looked_left, header_held, set_held, taken, taken_nal};
ghost use Rattle.aps.specs.declared.aps.VvcAps.{VvcAps};

use crate::set::Struct;
use aps::aps::Reading;
use aps::payload::{ApsOf, Payload};
use aps::unit_header::UnitHeader;
use aps_table::places::Table;
use aps_table::table::lookup_of;
use bitstream::Refusal;

// A set that was read, and the bit where reading ended; 2: it is of another kind.
#[tactic(auto, unfolding(crate::specs::Codes::code, crate::specs::Codes::place_left, crate::specs::Codes::value_left, crate::specs::Codes::of_kind))]
fn answered<P: Payload, S: Struct<P>>(
    answer: Result<Reading<ApsOf<P>>, Refusal>,
    set: &mut S,
    end: &mut [u64; 1],
) -> u32
    ensures code { (o : Outcome VvcAps) → outcome_reading answer ≡ map_outcome (part_by P.part) o → result ≡ code (of_kind P.KIND S.of o) }
    ensures set { (o : Outcome VvcAps) → outcome_reading answer ≡ map_outcome (part_by P.part) o → set.new ≡ value_left (of_kind P.KIND S.of o) set.old }
    ensures end { (o : Outcome VvcAps) → outcome_reading answer ≡ map_outcome (part_by P.part) o → end.new ≡ place_left (of_kind P.KIND S.of o) end.old }
{
    match answer {
        Ok(reading) => {
            if reading.value.head.kind != P::KIND {
                return Refusal::InvalidData.into();
            }
            set.put(&reading.value);
            end[0] = reading.end as u64;
            0
        }
        Err(why) => why.into(),
    }
}

// A set out of its RBSP.
pub(crate) fn parse_rbsp<P: Payload, S: Struct<P>>(
    bytes: &[u8],
    set: &mut S,
    end: &mut [u64; 1],
) -> u32
    ensures code { result ≡ code (of_kind P.KIND S.of (parse_aps_rbsp bytes.now)) }
    ensures set { set.new ≡ value_left (of_kind P.KIND S.of (parse_aps_rbsp bytes.now)) set.old }
    ensures end { end.new ≡ place_left (of_kind P.KIND S.of (parse_aps_rbsp bytes.now)) end.old }
{
    answered(P::parse_rbsp(bytes), set, end)
}

// A set out of a unit.
pub(crate) fn parse<P: Payload, S: Struct<P>>(
    unit: &[u8],
    work: &mut [u8],
    set: &mut S,
    end: &mut [u64; 1],
) -> u32
    ensures code { result ≡ code (of_kind P.KIND S.of (parse_aps unit.now (length work.old))) }
    ensures set { set.new ≡ value_left (of_kind P.KIND S.of (parse_aps unit.now (length work.old))) set.old }
    ensures end { end.new ≡ place_left (of_kind P.KIND S.of (parse_aps unit.now (length work.old))) end.old }
    ensures work { work.new ≡ work_after unit.now work.old }
{
    answered(P::parse_unit(unit, work), set, end)
}

// The set held for an id, and its unit's header.
#[tactic(auto, unfolding(crate::specs::Codes::looked_code, crate::specs::Codes::looked_left))]
pub(crate) fn look_up<P: Payload, S: Struct<P>>(
    table: &Table,
    id: u8,
    set: &mut S,
    header: &mut UnitHeader,
) -> u32
    ensures code { result ≡ looked_code (looked_up table.now (number_of P.KIND) id) }
    ensures set { set.new ≡ looked_left (set_held S.of) (looked_up table.now (number_of P.KIND) id) set.old }
    ensures header { header.new ≡ looked_left header_held (looked_up table.now (number_of P.KIND) id) header.old }
{
    match lookup_of::<P>(table, id) {
        Ok(found) => {
            set.put(&found.set);
            *header = found.header;
            0
        }
        Err(why) => why.into(),
    }
}

// How many bytes were written.
#[tactic(auto, unfolding(crate::specs::Codes::code, crate::specs::Codes::place_left))]
pub(crate) fn sized(size: Result<usize, Refusal>, len: &mut [u64; 1]) -> u32
    ensures code { (l : List ℕ) → result ≡ code (outcome_written size l) }
    ensures len { (l : List ℕ) → len.new ≡ place_left (outcome_written size l) len.old }
{
    match size {
        Ok(n) => {
            len[0] = n as u64;
            0
        }
        Err(why) => why.into(),
    }
}

// A set as an RBSP at the start of out, and its length. One function for what it and `write_nal` refuse would copy the record once more.
#[tactic(auto, unfolding(crate::specs::Codes::code, crate::specs::Codes::place_left, crate::specs::Codes::taken))]
pub(crate) fn write<P: Payload, S: Struct<P>>(set: &S, out: &mut [u8], len: &mut [u64; 1]) -> u32
    ensures code { result ≡ code (taken (S.extension set.now) (S.flags set.now) (write_aps (S.meaning set.now) out.old)) }
    ensures out { out.new ≡ left out.old (taken (S.extension set.now) (S.flags set.now) (write_aps (S.meaning set.now) out.old)) }
    ensures len { len.new ≡ place_left (taken (S.extension set.now) (S.flags set.now) (write_aps (S.meaning set.now) out.old)) len.old }
{
    if set.extension() == 1 {
        return Refusal::Unsupported.into();
    }
    match set.payload() {
        Some(d) => sized(
            d.write_rbsp(set.id(), set.chroma() == 1, set.extension() == 1, out),
            len,
        ),
        None => Refusal::InvalidData.into(),
    }
}

// A set as a unit at the start of out, and its length.
#[tactic(auto, unfolding(crate::specs::Codes::code, crate::specs::Codes::place_left, crate::specs::Codes::taken, crate::specs::Codes::taken_nal))]
pub(crate) fn write_nal<P: Payload, S: Struct<P>>(
    set: &S,
    header: UnitHeader,
    out: &mut [u8],
    len: &mut [u64; 1],
) -> u32
    ensures code { result ≡ code (taken_nal header (S.extension set.now) (S.flags set.now) (write_aps_nal (S.meaning set.now) header out.old)) }
    ensures out { out.new ≡ left out.old (taken_nal header (S.extension set.now) (S.flags set.now) (write_aps_nal (S.meaning set.now) header out.old)) }
    ensures len { len.new ≡ place_left (taken_nal header (S.extension set.now) (S.flags set.now) (write_aps_nal (S.meaning set.now) header out.old)) len.old }
{
    if !header.is_aps() {
        return Refusal::InvalidData.into();
    }
    if set.extension() == 1 {
        return Refusal::Unsupported.into();
    }
    match set.payload() {
        Some(d) => sized(
            d.write_nal(
                set.id(),
                set.chroma() == 1,
                set.extension() == 1,
                header,
                out,
            ),
            len,
        ),
        None => Refusal::InvalidData.into(),
    }
}
