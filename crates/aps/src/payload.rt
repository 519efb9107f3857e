// The payload of a set of one kind: how it is read and written, and the set that it makes.
ghost use Rattle.std.specs.Prelude.{◌≡◌, Bool, List, ℕ, ◌+◌, ◌≤◌, length};
ghost use Rattle.aps.specs.ApsSyntax.{payload, number_of, from_aps};
ghost use Rattle.aps.specs.ApsSyntax as Syntax;
ghost use Rattle.aps.specs.Kinds.{largest_id};
ghost use Rattle.bitstream.specs.Outcome.{left, map_outcome, outcome_written};
ghost use Rattle.aps.specs.Unit.{parse_aps, work_after};
ghost use Rattle.aps.specs.Writing.{fit, write_aps, write_aps_nal};
ghost use Rattle.aps.specs.Payloads.{alike, alike_nal};
ghost use Rattle.aps.specs.Inner.{Bare, Passes};
ghost use Rattle.aps.specs.Rbsp.{read_rbsp, parse_aps_rbsp};
ghost use Rattle.aps.specs.Reading.{outcome_reading, head_of, part_by};
ghost use Rattle.aps.specs.Writes.{Wrote};
ghost use Rattle.aps.specs.declared.aps.ApsHead.{ApsHead};
ghost use Rattle.aps.specs.declared.aps.ApsKind.{ApsKind};
ghost use Rattle.aps.specs.declared.aps.VvcAps.{VvcAps};
ghost use Rattle.aps.specs.declared.payload.ApsOf.{ApsOf};
ghost use Rattle.aps.specs.declared.unit_header.UnitHeader.{UnitHeader};

use crate::alf::VvcAlfData;
use crate::aps::{ApsHead, ApsKind, Reading, open_rbsp};
use crate::lmcs::VvcLmcsData;
use crate::opened::Opened;
use crate::scaling_list::VvcScalingListData;
use crate::unit::rbsp_to_work;
use crate::unit_header::UnitHeader;
use crate::write::{copy_out, is_taken, put_rbsp, write_nal};
use crate::writer::Writer;
use bitstream::Refusal;

// The payload of a set of one kind, which is read and written without those of the other two.
pub trait Payload: Copy {
    ghost KIND: { ApsKind };

    ghost part: { VvcAps → Self };

    // The set of an id, the two flags and this payload; the writer does not look at the others.
    ghost alone: { ℕ → Bool → Bool → Self → VvcAps };

    // The set of a head and this payload, the arrays of the other kinds 0.
    ghost whole: { ApsOf Self → VvcAps };

    const KIND: ApsKind;

    // A set out of its RBSP, and no other array; a set of another kind is told by its kind.
    fn parse_rbsp(bytes: &[u8]) -> Result<Reading<ApsOf<Self>>, Refusal>
        ensures { outcome_reading result ≡ map_outcome (part_by part) (parse_aps_rbsp bytes.now) };

    // The same out of a unit, its RBSP put at the start of the work buffer.
    fn parse_unit(unit: &[u8], work: &mut [u8]) -> Result<Reading<ApsOf<Self>>, Refusal>
        ensures answer { outcome_reading result ≡ map_outcome (part_by part) (parse_aps unit.now (length work.old)) }
        ensures work { work.new ≡ work_after unit.now work.old };

    // A set as an RBSP. Not by a head: that has the kind too, which the type says.
    fn write_rbsp(
        &self,
        id: u8,
        chroma: bool,
        extension: bool,
        out: &mut [u8],
    ) -> Result<usize, Refusal>
        ensures answer { outcome_written result out.new ≡ write_aps (alone id chroma extension self.now) out.old }
        ensures bytes { out.new ≡ left out.old (write_aps (alone id chroma extension self.now) out.old) };

    // A set as a unit: its header, then the RBSP with escapes put in.
    fn write_nal(
        &self,
        id: u8,
        chroma: bool,
        extension: bool,
        header: UnitHeader,
        out: &mut [u8],
    ) -> Result<usize, Refusal>
        ensures answer { outcome_written result out.new ≡ write_aps_nal (alone id chroma extension self.now) header out.old }
        ensures bytes { out.new ≡ left out.old (write_aps_nal (alone id chroma extension self.now) header out.old) };

    // Whether it is a set of this kind that the writer would take were its extension flag 0.
    fn is_writable(set: &ApsOf<Self>) -> bool
        ensures { result ≡ fit KIND (whole set.now) };

    // A set of its kind is the set of its id, flags and payload.
    ghost own_whole: { (s : ApsOf Self) → s.head.kind ≡ KIND
        → whole s ≡ alone s.head.aps_adaptation_parameter_set_id s.head.aps_chroma_present_flag s.head.aps_extension_flag s.payload };

    // Sets of its kind with the same payload are written alike.
    ghost alike: { (a : VvcAps) (out : List ℕ) → a.kind ≡ KIND
        → write_aps (alone a.aps_adaptation_parameter_set_id a.aps_chroma_present_flag a.aps_extension_flag (part a)) out ≡ write_aps a out };

    // As a unit too.
    ghost alike_nal: { (a : VvcAps) (h : UnitHeader) (out : List ℕ) → a.kind ≡ KIND
        → write_aps_nal (alone a.aps_adaptation_parameter_set_id a.aps_chroma_present_flag a.aps_extension_flag (part a)) h out ≡ write_aps_nal a h out };
}

// How it is read and written, field by field; by functions of each kind's own, since each has a syntax of its own in H.266.
pub(crate) trait Coded: Copy + Default {
    ghost KIND: { ApsKind };

    // Nothing sent.
    ghost none: { Self };

    // The set of a head and this payload, the arrays of the other kinds 0.
    ghost set: { ApsHead → Self → VvcAps };

    ghost part: { VvcAps → Self };

    ghost alone: { ℕ → Bool → Bool → Self → VvcAps };

    ghost sent: { Bool → Self → Syntax.Payload };

    const KIND: ApsKind;

    // The payload after its head, its id where it is judged, and what closes the RBSP. One body would ask each kind for that order, and need a contract of the payload alone.
    // The record is lent, in which nothing is stored yet: given by value, a set was copied at each call and read slower.
    fn read(opened: Opened<'_>, d: &mut Self) -> Result<Reading<ApsHead>, Refusal>
        requires { (opened.head.kind ≡ KIND) × (d.old ≡ none) }
        ensures { map_outcome (λ h. set h d.new) (outcome_reading result) ≡ read_rbsp opened.entry.reader.bytes.now };

    // The payload of a set with an id that its kind has.
    fn write(&self, writer: &mut Writer, chroma: bool) -> Result<(), Refusal>
        requires { writer.old.at ≤ 100 }
        ensures wrote { (id : ℕ) → id ≤ largest_id (number_of KIND) → Wrote (payload (number_of KIND) id chroma) (sent chroma self.now) writer.old writer.new result }
        ensures within { writer.new.at ≤ writer.old.at + 31248 };

    ghost default_is: { (p : Self) → Self.is_default p → p ≡ none };

    ghost head_is: { (h : ApsHead) (p : Self) → head_of (set h p) ≡ h };

    ghost part_is: { (h : ApsHead) (p : Self) → part (set h p) ≡ p };

    ghost bare: { (kind : ApsKind) (h : ApsHead) (p : Self) → kind ≡ KIND → Bare kind (set h p) };

    ghost other: { (kind : ApsKind) (a : VvcAps) → Bare kind a → (kind ≡ KIND → ⊥) → part a ≡ none };

    ghost own: { (h : ApsHead) (p : Self) → h.kind ≡ KIND → set h p ≡ alone h.aps_adaptation_parameter_set_id h.aps_chroma_present_flag h.aps_extension_flag p };

    ghost sent_alone: { (id : ℕ) (chroma extension : Bool) (p : Self) → from_aps (alone id chroma extension p) ≡ (number_of KIND, (id, (chroma, (sent chroma p, extension)))) };

    ghost sent_part: { (a : VvcAps) → a.kind ≡ KIND → from_aps (alone a.aps_adaptation_parameter_set_id a.aps_chroma_present_flag a.aps_extension_flag (part a)) ≡ from_aps a };
}

impl<P: Coded> Payload for P {
    ghost KIND = { P.KIND };

    ghost part = { P.part };

    ghost alone = { P.alone };

    ghost whole = { λ s. P.set s.head s.payload };

    const KIND: ApsKind = P::KIND;

    fn parse_rbsp(bytes: &[u8]) -> Result<Reading<ApsOf<Self>>, Refusal> {
        let opened = open_rbsp(bytes)?;
        if opened.head.kind != P::KIND {
            let passed = pass_payload(opened)?;
            return Ok(Reading {
                value: ApsOf {
                    head: passed.value,
                    payload: P::default(),
                },
                end: passed.end,
            });
        }
        let mut payload = P::default();
        let reading = P::read(opened, &mut payload)?;
        Ok(Reading {
            value: ApsOf {
                head: reading.value,
                payload,
            },
            end: reading.end,
        })
    }

    fn parse_unit(unit: &[u8], work: &mut [u8]) -> Result<Reading<ApsOf<Self>>, Refusal> {
        let n = rbsp_to_work(unit, work)?;
        Self::parse_rbsp(&work[..n])
    }

    fn write_rbsp(
        &self,
        id: u8,
        chroma: bool,
        extension: bool,
        out: &mut [u8],
    ) -> Result<usize, Refusal> {
        let mut writer = Writer::new();
        put_rbsp(&mut writer, id, chroma, extension, self)?;
        copy_out(writer.bytes(), out)
    }

    fn write_nal(
        &self,
        id: u8,
        chroma: bool,
        extension: bool,
        header: UnitHeader,
        out: &mut [u8],
    ) -> Result<usize, Refusal> {
        if !header.is_aps() {
            return Err(Refusal::InvalidData);
        }
        let mut rbsp = Writer::new();
        put_rbsp(&mut rbsp, id, chroma, extension, self)?;
        write_nal(rbsp.bytes(), header, out)
    }

    fn is_writable(set: &ApsOf<Self>) -> bool {
        let head = set.head;
        if head.kind != P::KIND {
            return false;
        }
        is_taken(
            head.aps_adaptation_parameter_set_id,
            head.aps_chroma_present_flag,
            &set.payload,
        )
    }

    ghost own_whole = { λ s e. P.own s.head s.payload e };

    ghost alike = { λ a out e. alike _ a out (P.sent_part a e) };

    ghost alike_nal = { λ a h out e. alike_nal _ a h out (P.sent_part a e) };
}

// A set of which one kind's payload is kept: its head and that payload, none where the set is of another kind.
#[derive(Clone, Copy)]
pub struct ApsOf<P> {
    pub head: ApsHead,
    pub payload: P,
}

// Reads past a payload, which is not kept.
fn pass_one<P: Coded>(opened: Opened<'_>) -> Result<Reading<ApsHead>, Refusal>
    requires { opened.head.kind ≡ P.KIND }
    ensures { Passes opened.entry.head.kind result (read_rbsp opened.entry.reader.bytes.now) }
{
    let mut d = P::default();
    P::read(opened, &mut d)
}

// Reads past the payload of any kind.
pub(crate) fn pass_payload(opened: Opened<'_>) -> Result<Reading<ApsHead>, Refusal>
    ensures { Passes opened.entry.head.kind result (read_rbsp opened.entry.reader.bytes.now) }
{
    match opened.head.kind {
        ApsKind::Alf => pass_one::<VvcAlfData>(opened),
        ApsKind::Lmcs => pass_one::<VvcLmcsData>(opened),
        ApsKind::Scaling => pass_one::<VvcScalingListData>(opened),
    }
}
