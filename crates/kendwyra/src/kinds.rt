// Each kind read and written again by its own record, with no struct: the comparison measures readers and writers by these.
ghost use Rattle.std.specs.Prelude.{◌≡◌};
ghost use Rattle.bitstream.specs.Outcome.{left};
ghost use Rattle.aps.specs.Rbsp.{parse_aps_rbsp};
ghost use Rattle.aps.specs.Reading.{outcome_reading};
ghost use Rattle.kendwyra.specs.Codes.{code, place_left, rewrite_of};

use crate::calls::sized;
use aps::alf::VvcAlfData;
use aps::aps::{ApsKind, Reading};
use aps::lmcs::VvcLmcsData;
use aps::payload::Payload;
use aps::scaling_list::VvcScalingListData;
use bitstream::Refusal;

// The bit where reading ended, whatever was read.
#[tactic(auto, unfolding(crate::specs::Codes::code, crate::specs::Codes::place_left))]
fn ended<T: Copy>(answer: Result<Reading<T>, Refusal>, end: &mut [u64; 1]) -> u32
    ensures code { result ≡ code (outcome_reading answer) }
    ensures end { end.new ≡ place_left (outcome_reading answer) end.old }
{
    match answer {
        Ok(reading) => {
            end[0] = reading.end as u64;
            0
        }
        Err(e) => e.into(),
    }
}

// A set read by one kind: whether there is a set, and the bit where reading it ended.
#[tactic(auto, unfolding(crate::specs::Codes::code, crate::specs::Codes::place_left))]
fn payload_end<P: Payload>(bytes: &[u8], end: &mut [u64; 1]) -> u32
    ensures code { result ≡ code (parse_aps_rbsp bytes.now) }
    ensures end { end.new ≡ place_left (parse_aps_rbsp bytes.now) end.old }
{
    ended(P::parse_rbsp(bytes), end)
}

// A set read and written again by one kind, and its length; 2 for a set of another kind.
#[tactic(auto, unfolding(crate::specs::Codes::code, crate::specs::Codes::place_left, crate::specs::Codes::rewrite_of, crate::specs::Codes::of_kind))]
fn payload_rewrite<P: Payload>(bytes: &[u8], out: &mut [u8], len: &mut [u64; 1]) -> u32
    ensures code { result ≡ code (rewrite_of P.KIND bytes.now out.old) }
    ensures out { out.new ≡ left out.old (rewrite_of P.KIND bytes.now out.old) }
    ensures len { len.new ≡ place_left (rewrite_of P.KIND bytes.now out.old) len.old }
{
    match P::parse_rbsp(bytes) {
        Ok(reading) => {
            let set = reading.value;
            let head = set.head;
            if head.kind != P::KIND {
                return Refusal::InvalidData.into();
            }
            let id = head.aps_adaptation_parameter_set_id;
            let chroma = head.aps_chroma_present_flag;
            let extension = head.aps_extension_flag;
            sized(set.payload.write_rbsp(id, chroma, extension, out), len)
        }
        Err(e) => e.into(),
    }
}

// An ALF set read by its own kind: whether there is a set, and the bit where reading it ended.
#[unsafe(no_mangle)]
pub extern "C" fn aps_alf_end(bytes: &[u8], end: &mut [u64; 1]) -> u32
    ensures code { result ≡ code (parse_aps_rbsp bytes.now) }
    ensures end { end.new ≡ place_left (parse_aps_rbsp bytes.now) end.old }
{
    payload_end::<VvcAlfData>(bytes, end)
}

// An ALF set read and written again by its own kind, and its length; 2 for a set of another kind.
#[unsafe(no_mangle)]
pub extern "C" fn aps_alf_rewrite(bytes: &[u8], out: &mut [u8], len: &mut [u64; 1]) -> u32
    ensures code { result ≡ code (rewrite_of ApsKind.Alf bytes.now out.old) }
    ensures out { out.new ≡ left out.old (rewrite_of ApsKind.Alf bytes.now out.old) }
    ensures len { len.new ≡ place_left (rewrite_of ApsKind.Alf bytes.now out.old) len.old }
{
    payload_rewrite::<VvcAlfData>(bytes, out, len)
}

// An LMCS set read by its own kind: whether there is a set, and the bit where reading it ended.
#[unsafe(no_mangle)]
pub extern "C" fn aps_lmcs_end(bytes: &[u8], end: &mut [u64; 1]) -> u32
    ensures code { result ≡ code (parse_aps_rbsp bytes.now) }
    ensures end { end.new ≡ place_left (parse_aps_rbsp bytes.now) end.old }
{
    payload_end::<VvcLmcsData>(bytes, end)
}

// An LMCS set read and written again by its own kind, and its length; 2 for a set of another kind.
#[unsafe(no_mangle)]
pub extern "C" fn aps_lmcs_rewrite(bytes: &[u8], out: &mut [u8], len: &mut [u64; 1]) -> u32
    ensures code { result ≡ code (rewrite_of ApsKind.Lmcs bytes.now out.old) }
    ensures out { out.new ≡ left out.old (rewrite_of ApsKind.Lmcs bytes.now out.old) }
    ensures len { len.new ≡ place_left (rewrite_of ApsKind.Lmcs bytes.now out.old) len.old }
{
    payload_rewrite::<VvcLmcsData>(bytes, out, len)
}

// A scaling set read by its own kind: whether there is a set, and the bit where reading it ended.
#[unsafe(no_mangle)]
pub extern "C" fn aps_scaling_end(bytes: &[u8], end: &mut [u64; 1]) -> u32
    ensures code { result ≡ code (parse_aps_rbsp bytes.now) }
    ensures end { end.new ≡ place_left (parse_aps_rbsp bytes.now) end.old }
{
    payload_end::<VvcScalingListData>(bytes, end)
}

// A scaling set read and written again by its own kind, and its length; 2 for a set of another kind.
#[unsafe(no_mangle)]
pub extern "C" fn aps_scaling_rewrite(bytes: &[u8], out: &mut [u8], len: &mut [u64; 1]) -> u32
    ensures code { result ≡ code (rewrite_of ApsKind.Scaling bytes.now out.old) }
    ensures out { out.new ≡ left out.old (rewrite_of ApsKind.Scaling bytes.now out.old) }
    ensures len { len.new ≡ place_left (rewrite_of ApsKind.Scaling bytes.now out.old) len.old }
{
    payload_rewrite::<VvcScalingListData>(bytes, out, len)
}
