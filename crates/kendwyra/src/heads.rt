// What every set has, without its arrays.
ghost use Rattle.std.specs.Prelude.{◌≡◌, length};
ghost use Rattle.bitstream.specs.Outcome.{Outcome, map_outcome};
ghost use Rattle.aps.specs.Rbsp.{parse_aps_rbsp};
ghost use Rattle.aps.specs.Unit.{parse_aps, work_after};
ghost use Rattle.aps.specs.Reading.{outcome_reading, head_of};
ghost use Rattle.aps.specs.declared.aps.VvcAps.{VvcAps};
ghost use Rattle.kendwyra.specs.Codes.{code, value_left, place_left};
ghost use Rattle.kendwyra.specs.Structs.{head_struct};

use crate::structs::ApsHead;
use aps::aps::{Reading, parse_aps_head};
use aps::unit::parse_unit_head;
use bitstream::Refusal;

// C's struct of a head.
#[tactic(auto, unfolding(crate::specs::Structs::head_struct))]
pub(crate) fn put_head(from: &aps::aps::ApsHead, head: &mut ApsHead)
    ensures { (a : VvcAps) → from.now ≡ head_of a → head.new ≡ head_struct a }
{
    *head = ApsHead {
        kind: u8::from(from.kind),
        aps_adaptation_parameter_set_id: from.aps_adaptation_parameter_set_id,
        aps_chroma_present_flag: u8::from(from.aps_chroma_present_flag),
        aps_extension_flag: u8::from(from.aps_extension_flag),
    };
}

#[tactic(auto, unfolding(crate::specs::Codes::code, crate::specs::Codes::value_left, crate::specs::Codes::place_left))]
fn answered(
    answer: Result<Reading<aps::aps::ApsHead>, Refusal>,
    head: &mut ApsHead,
    end: &mut [u64; 1],
) -> u32
    ensures { (o : Outcome VvcAps) → outcome_reading answer ≡ map_outcome head_of o
        → (result ≡ code o) × ((head.new ≡ value_left (map_outcome head_struct o) head.old) × (end.new ≡ place_left o end.old)) }
{
    match answer {
        Ok(reading) => {
            put_head(&reading.value, head);
            end[0] = reading.end as u64;
            0
        }
        Err(why) => why.into(),
    }
}

// Of a set out of its RBSP the kind, the id and the flags, and the bit where reading ended.
#[unsafe(no_mangle)]
pub extern "C" fn aps_head_parse_rbsp(bytes: &[u8], head: &mut ApsHead, end: &mut [u64; 1]) -> u32
    ensures code { result ≡ code (parse_aps_rbsp bytes.now) }
    ensures head { head.new ≡ value_left (map_outcome head_struct (parse_aps_rbsp bytes.now)) head.old }
    ensures end { end.new ≡ place_left (parse_aps_rbsp bytes.now) end.old }
{
    answered(parse_aps_head(bytes), head, end)
}

// The same out of a unit; its RBSP goes to the start of the work buffer.
#[unsafe(no_mangle)]
pub extern "C" fn aps_head_parse(
    unit: &[u8],
    work: &mut [u8],
    head: &mut ApsHead,
    end: &mut [u64; 1],
) -> u32
    ensures code { result ≡ code (parse_aps unit.now (length work.old)) }
    ensures head { head.new ≡ value_left (map_outcome head_struct (parse_aps unit.now (length work.old))) head.old }
    ensures end { end.new ≡ place_left (parse_aps unit.now (length work.old)) end.old }
    ensures work { work.new ≡ work_after unit.now work.old }
{
    answered(parse_unit_head(unit, work), head, end)
}
