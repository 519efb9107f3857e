// nal_unit_header(), H.266 7.3.1.2. After src/h266.rs.
ghost use Rattle.std.specs.Prelude.{◌≡◌};
ghost use Rattle.aps.specs.Unit.{outcome_h, parse_nal_header};

use bitstream::{Input, Refusal};

// nal_unit_type of a set before its pictures, and of one after them.
pub const NAL_TYPE_PREFIX_APS: u8 = 17;

pub const NAL_TYPE_SUFFIX_APS: u8 = 18;

#[derive(Clone, Copy, Debug, PartialEq, Eq)]
pub struct VvcNalHeader {
    pub forbidden_zero_bit: u8,
    pub nuh_reserved_zero_bit: u8,
    pub nuh_layer_id: u8,
    pub nal_unit_type: u8,
    pub nuh_temporal_id_plus1: u8,
}

// The two bytes at the start of a unit; nothing in them is judged.
pub fn parse_nal_header(unit: &[u8]) -> Result<VvcNalHeader, Refusal>
    ensures { outcome_h result ≡ parse_nal_header unit.now }
{
    let input = Input::new(unit)?;
    if input.bytes.len() < 2 {
        return Err(Refusal::UnexpectedEnd);
    }
    let first = input.bytes[0];
    let second = input.bytes[1];
    Ok(VvcNalHeader {
        forbidden_zero_bit: first / 128,
        nuh_reserved_zero_bit: first / 64 % 2,
        nuh_layer_id: first % 64,
        nal_unit_type: second / 8,
        nuh_temporal_id_plus1: second % 8,
    })
}
