// The table: a unit alone and a stream taken into it, and the lookup.
ghost use Rattle.std.specs.Prelude.{◌≡◌, true, false, leb, ◌+◌, ◌/◌, ◌%◌, ◌≤◌, ◌<◌, length, get_or, IfSome, IfNone};
ghost use Rattle.bitstream.specs.Outcome.{number};
ghost use Rattle.aps.specs.Unit.{work_after};
ghost use Rattle.aps.specs.ApsSyntax.{number_of};
ghost use Rattle.aps.specs.Reading.{head_of, part_by};
ghost use Rattle.aps_table.specs.Split.{split};
ghost use Rattle.aps.specs.Unit.{rbsp_of, unit_header};
ghost use Rattle.aps_table.specs.Inner.{splits, units_of, names_damaged, Owned};
ghost use Rattle.aps_table.specs.Places.{found_in, held, looked_up};
ghost use Rattle.aps_table.specs.Taking.{Verdict, is_passed, take_units, work_units, tally, no_units, count as count_of};
ghost use Rattle.aps_table.specs.Calls.{read_of, longest, stream, alone, single, table_after, answer_to, work_after_stream};
ghost use Rattle.aps_table.specs.Answers.{unit_answer, stream_answer, lookup_answer, looked_answer, looked_by};

use crate::held_set::HeldSet;
use crate::places::{HEADER_BYTES, Place, Table};
use crate::split::Cursor;
use aps::LONGEST_RBSP;
use aps::aps::{ApsHead, Reading, VvcAps, parse_aps_head, parse_aps_rbsp};
use aps::nal_header::parse_nal_header;
use aps::payload::{ApsOf, Payload};
use aps::unit::parse_unit_head;
use aps::unit_header::{is_aps, parse_unit_header};
use bitstream::nal::unescaped_fits;
use bitstream::{Input, Refusal};

// What a unit alone comes to where it is not refused: it is accepted or passed over.
#[derive(Clone, Copy, Debug, PartialEq, Eq)]
pub enum Taken {
    Accepted,
    Passed,
}

// How many units of a stream were accepted, refused and passed over.
#[derive(Clone, Copy, Debug, Default, PartialEq, Eq)]
pub struct Counts {
    pub accepted: usize,
    pub refused: usize,
    pub passed: usize,
}

impl Counts {
    // One unit more is counted.
    fn with(self, answer: Result<Taken, Refusal>) -> Self
        requires { self.accepted + self.refused + self.passed < 1000000 }
        ensures { (v : Verdict) → unit_answer answer ≡ single v → result ≡ count_of v self }
    {
        match answer {
            Ok(Taken::Accepted) => Counts {
                accepted: self.accepted + 1,
                ..self
            },
            Ok(Taken::Passed) => Counts {
                passed: self.passed + 1,
                ..self
            },
            Err(_) => Counts {
                refused: self.refused + 1,
                ..self
            },
        }
    }
}

// A unit of another type than an APS's.
fn is_passed(unit: &[u8]) -> bool
    ensures { result ≡ is_passed unit.now }
{
    match parse_nal_header(unit) {
        Ok(header) => !is_aps(header.nal_unit_type),
        Err(_) => false,
    }
}

// The place that a refused unit empties: where its RBSP was refused with 1, 2 or 4, the one that the RBSP's first byte names. No escape stands before that byte.
#[tactic(auto, unfolding(crate::specs::Inner::names_damaged, crate::specs::Places::named))]
fn damaged_place(unit: &[u8], why: Refusal) -> Option<Place>
    ensures some { IfSome result (λ place. (names_damaged unit.now (number why) ≡ true) × (number_of place.kind ≡ get_or unit.now 2 0 / 32) × (place.id ≡ get_or unit.now 2 0 % 32)) }
    ensures none { IfNone result (names_damaged unit.now (number why) ≡ false) }
{
    let number = u32::from(why);
    if 2 < number && number != 4 {
        return None;
    }
    let &[_, _, first, ..] = unit else {
        return None;
    };
    Place::new(first / 32, first % 32)
}

// An APS unit, or one that is too long or too short for a header.
fn take_aps(table: &mut Table, unit: &[u8], work: &mut [u8]) -> Result<Taken, Refusal>
    requires { is_passed unit.now ≡ false }
    ensures answer { unit_answer result ≡ answer_to (alone unit.now (length work.old)) }
    ensures table { table.new ≡ table_after (alone unit.now (length work.old)) table.old }
    ensures work { work.new ≡ work_after unit.now work.old }
{
    // A header that is refused empties no place.
    parse_unit_header(unit)?;
    match parse_unit_head(unit, work) {
        Ok(reading) => {
            let head = reading.value;
            let place = Place {
                kind: head.kind,
                id: head.aps_adaptation_parameter_set_id,
            };
            place.store(table, &unit[..HEADER_BYTES], &work[..(reading.end + 7) / 8]);
            Ok(Taken::Accepted)
        }
        Err(why) => {
            if let Some(place) = damaged_place(unit, why) {
                place.clear(table);
            }
            Err(why)
        }
    }
}

// A unit alone: 4; 1; passed over; then as `parse_aps`. One that is refused with 1, 2 or 4 after its header empties the place that its RBSP names.
pub fn take_unit(table: &mut Table, unit: &[u8], work: &mut [u8]) -> Result<Taken, Refusal>
    ensures answer { unit_answer result ≡ answer_to (alone unit.now (length work.old)) }
    ensures table { table.new ≡ table_after (alone unit.now (length work.old)) table.old }
    ensures work { work.new ≡ work_after unit.now work.old }
{
    if is_passed(unit) {
        return Ok(Taken::Passed);
    }
    take_aps(table, unit, work)
}

// The units of a stream whose split holds, in order.
fn take_units(table: &mut Table, stream: Input<'_>, work: &mut [u8]) -> Counts
    requires { splits (split stream.bytes.now) ≡ true }
    ensures counts { result ≡ tally (length work.old) (units_of (split stream.entry.bytes.now)) no_units }
    ensures table { table.new ≡ take_units (length work.old) (units_of (split stream.entry.bytes.now)) table.old }
    ensures work { work.new ≡ work_units (units_of (split stream.entry.bytes.now)) work.old }
{
    let mut counts = Counts::default();
    let mut rest = Cursor::new(stream);
    // The next place is what the step gives; no index is counted.
    while let Ok(Some(unit)) = rest.next_unit() {
        let answer = take_unit(table, unit.bytes, work);
        counts = counts.with(answer);
        rest = unit.rest;
    }
    counts
}

// Whether the RBSP of a unit that is read fits into room bytes.
fn rbsp_fits(unit: &[u8], room: usize) -> bool
    ensures { result ≡ leb (read_of (unit_header unit.now) (rbsp_of unit.now)) room }
{
    match parse_unit_header(unit) {
        Ok(_) => {
            let bytes = &unit[HEADER_BYTES..];
            if !unescaped_fits(Input { bytes }, LONGEST_RBSP) {
                return true;
            }
            unescaped_fits(Input { bytes }, room)
        }
        Err(_) => true,
    }
}

// Whether a work buffer of room bytes is enough for the units of a stream whose split holds.
fn suffices(stream: Input<'_>, room: usize) -> bool
    requires { splits (split stream.bytes.now) ≡ true }
    ensures { result ≡ leb (longest (units_of (split stream.entry.bytes.now))) room }
{
    if LONGEST_RBSP <= room {
        return true;
    }
    let mut rest = Cursor::new(stream);
    // The next place is what the step gives; no index is counted.
    while let Ok(Some(unit)) = rest.next_unit() {
        if !rbsp_fits(unit.bytes, room) {
            return false;
        }
        rest = unit.rest;
    }
    true
}

// A stream: 4; 2; 5: the work buffer is shorter than the longest RBSP that is read; then its units.
pub fn take_stream(table: &mut Table, bytes: &[u8], work: &mut [u8]) -> Result<Counts, Refusal>
    ensures answer { stream_answer result ≡ answer_to (stream bytes.now (length work.old)) }
    ensures table { table.new ≡ table_after (stream bytes.now (length work.old)) table.old }
    ensures work { work.new ≡ work_after_stream bytes.now work.old }
{
    let stream = Input::new(bytes)?;
    Cursor::check_split(stream)?;
    if !suffices(stream, work.len()) {
        return Err(Refusal::OutputTooShort);
    }
    Ok(take_units(table, stream, work))
}

// The set of a place, or 6.
fn set_held(table: &Table, place: Place) -> Result<HeldSet<VvcAps>, Refusal>
    ensures { lookup_answer result ≡ found_in (held table.now (number_of place.kind) place.id) }
{
    let header = place.header(table).ok_or(Refusal::EmptyPlace)?;
    if let Ok(reading) = parse_aps_rbsp(place.rbsp(table)) {
        let set = reading.value;
        if (set.kind, set.aps_adaptation_parameter_set_id) == (place.kind, place.id) {
            return Ok(HeldSet { header, set });
        }
    }
    Err(Refusal::EmptyPlace)
}

// The set held for a kind and an id, with its unit's header: 2; 6. The kind is a number, and one that is no kind's gets 2.
pub fn lookup(table: &Table, kind: u8, id: u8) -> Result<HeldSet<VvcAps>, Refusal>
    ensures { lookup_answer result ≡ looked_up table.now kind id }
{
    set_held(table, Place::new(kind, id).ok_or(Refusal::InvalidData)?)
}

// The header and the head of a place's own set and the bit where the set ends, if it holds one. One body for it, the set and a payload would need a trait with an impl for each, and be longer.
pub(crate) fn own_head(table: &Table, place: Place) -> Option<HeldSet<Reading<ApsHead>>>
    ensures { Owned table.now (number_of place.kind) place.id result }
{
    let header = place.header(table)?;
    if let Ok(reading) = parse_aps_head(place.rbsp(table)) {
        let head = reading.value;
        if (head.kind, head.aps_adaptation_parameter_set_id) == (place.kind, place.id) {
            return Some(HeldSet {
                header,
                set: reading,
            });
        }
    }
    None
}

// The head of the set of a place, or 6.
fn head_held(table: &Table, place: Place) -> Result<HeldSet<ApsHead>, Refusal>
    ensures { looked_answer result ≡ looked_by head_of (found_in (held table.now (number_of place.kind) place.id)) }
{
    let own = own_head(table, place).ok_or(Refusal::EmptyPlace)?;
    Ok(HeldSet {
        header: own.header,
        set: own.set.value,
    })
}

// Of the set held for a kind and an id its header and its head, and no array: 2; 6. C passes a kind's number.
pub fn lookup_head(table: &Table, kind: u8, id: u8) -> Result<HeldSet<ApsHead>, Refusal>
    ensures { looked_answer result ≡ looked_by head_of (looked_up table.now kind id) }
{
    head_held(table, Place::new(kind, id).ok_or(Refusal::InvalidData)?)
}

// Of the set of a place its header, its head and one kind's payload, or 6.
fn payload_held<P: Payload>(table: &Table, place: Place) -> Result<HeldSet<ApsOf<P>>, Refusal>
    ensures { looked_answer result ≡ looked_by (part_by P.part) (found_in (held table.now (number_of place.kind) place.id)) }
{
    let header = place.header(table).ok_or(Refusal::EmptyPlace)?;
    if let Ok(reading) = P::parse_rbsp(place.rbsp(table)) {
        let set = reading.value;
        if (set.head.kind, set.head.aps_adaptation_parameter_set_id) == (place.kind, place.id) {
            return Ok(HeldSet { header, set });
        }
    }
    Err(Refusal::EmptyPlace)
}

// The set held for an id of one kind, by its header and its payload alone: 2; 6.
pub fn lookup_of<P: Payload>(table: &Table, id: u8) -> Result<HeldSet<ApsOf<P>>, Refusal>
    ensures { looked_answer result ≡ looked_by (part_by P.part) (looked_up table.now (number_of P.KIND) id) }
{
    payload_held(
        table,
        Place::new(u8::from(P::KIND), id).ok_or(Refusal::InvalidData)?,
    )
}
