// The fields of the lists' bytes: each is refused with 1 where it would pass their end.
ghost use Rattle.std.specs.Prelude.{◌≡◌, ◌*◌, ◌≤◌, length, IfOk};
ghost use Rattle.aps.specs.Codec.{ue};
ghost use Rattle.aps.specs.Elements.{flag, ue_to, se_in};
ghost use Rattle.aps.specs.Reading.{outcome_reading};

use aps::aps::Reading;
use bitstream::bit_reader::BitReader;
use bitstream::{Input, Refusal};

// u(1) as a flag.
pub(crate) fn read_flag(input: Input, at: usize) -> Result<Reading<bool>, Refusal>
    requires { at ≤ length input.bytes.now * 8 }
    ensures field { outcome_reading result ≡ flag.read input.entry.bytes.now at }
    ensures inside { IfOk result (λ r. r.end ≤ length input.entry.bytes.now * 8) }
{
    let bit = (BitReader { bit_pos: at }).u(input.bytes, 1)?;
    if bit.lacking {
        return Err(Refusal::UnexpectedEnd);
    }
    Ok(Reading {
        value: bit.value != 0,
        end: bit.next.bit_pos,
    })
}

// ue(v) in 0..most.
pub(crate) fn read_ue_to(input: Input, at: usize, most: u32) -> Result<Reading<u32>, Refusal>
    requires { at ≤ length input.bytes.now * 8 }
    ensures field { outcome_reading result ≡ (ue_to most).read input.entry.bytes.now at }
    ensures inside { IfOk result (λ r. r.end ≤ length input.entry.bytes.now * 8) }
{
    let field = (BitReader { bit_pos: at }).ue_by_table(input.bytes)?;
    if field.lacking {
        return Err(Refusal::UnexpectedEnd);
    }
    if most < field.value {
        return Err(Refusal::InvalidData);
    }
    Ok(Reading {
        value: field.value,
        end: field.next.bit_pos,
    })
}

// se(v) in low..high.
pub(crate) fn read_se_in(
    input: Input,
    at: usize,
    low: i32,
    high: i32,
) -> Result<Reading<i32>, Refusal>
    requires { at ≤ length input.bytes.now * 8 }
    ensures field { outcome_reading result ≡ (se_in low high).read input.entry.bytes.now at }
    ensures inside { IfOk result (λ r. r.end ≤ length input.entry.bytes.now * 8) }
{
    let field = (BitReader { bit_pos: at }).se_by_table(input.bytes)?;
    if field.lacking {
        return Err(Refusal::UnexpectedEnd);
    }
    if field.value < low || high < field.value {
        return Err(Refusal::InvalidData);
    }
    Ok(Reading {
        value: field.value,
        end: field.next.bit_pos,
    })
}
