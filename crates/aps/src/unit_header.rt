// What a set keeps of its unit's header, and what is judged of it. H.266 7.4.2.2, which the Rust does not judge.
ghost use Rattle.std.specs.Prelude.{◌≡◌};
ghost use Rattle.aps.specs.Unit.{is_aps, is_aps_header, zero_bits, unit_header, outcome_unit_header};

use crate::nal_header::{NAL_TYPE_PREFIX_APS, NAL_TYPE_SUFFIX_APS, VvcNalHeader, parse_nal_header};
use bitstream::Refusal;

// The header without forbidden_zero_bit and nuh_reserved_zero_bit.
#[repr(C)]
#[derive(Clone, Copy, Debug, PartialEq, Eq)]
pub struct UnitHeader {
    pub nal_unit_type: u8,
    pub nuh_layer_id: u8,
    pub nuh_temporal_id_plus1: u8,
}

// A prefix or a suffix APS. The type is a number: C passes it, the Rust's header has it so, and 2 answers every other.
pub fn is_aps(unit_type: u8) -> bool
    ensures { result ≡ is_aps unit_type }
{
    unit_type == NAL_TYPE_PREFIX_APS || unit_type == NAL_TYPE_SUFFIX_APS
}

impl UnitHeader {
    // One of an APS unit: its type, then a layer and a temporal id that H.266 has.
    #[tactic(auto, unfolding(crate::specs::Unit::is_aps_header))]
    pub fn is_aps(self) -> bool
        ensures { result ≡ is_aps_header self }
    {
        is_aps(self.nal_unit_type)
            && self.nuh_layer_id <= 55
            && 1 <= self.nuh_temporal_id_plus1
            && self.nuh_temporal_id_plus1 <= 7
    }
}

// Both bits that H.266 wants to be 0 are.
#[tactic(auto, unfolding(crate::specs::Unit::zero_bits))]
fn zero_bits(header: VvcNalHeader) -> bool
    ensures { result ≡ zero_bits header }
{
    header.forbidden_zero_bit == 0 && header.nuh_reserved_zero_bit == 0
}

// The header of an APS unit: 4; 1; 2 for another type, then for a zero bit that is 1, a layer or a temporal id out of range.
pub fn parse_unit_header(unit: &[u8]) -> Result<UnitHeader, Refusal>
    ensures { outcome_unit_header result ≡ unit_header unit.now }
{
    let header = parse_nal_header(unit)?;
    let kept = UnitHeader {
        nal_unit_type: header.nal_unit_type,
        nuh_layer_id: header.nuh_layer_id,
        nuh_temporal_id_plus1: header.nuh_temporal_id_plus1,
    };
    if !kept.is_aps() {
        return Err(Refusal::InvalidData);
    }
    if !zero_bits(header) {
        return Err(Refusal::InvalidData);
    }
    Ok(kept)
}
