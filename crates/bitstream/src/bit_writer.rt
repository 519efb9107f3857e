// Fields written into a lent slice at a bit position. After src/bit_writer.rs.
ghost use Rattle.std.specs.Prelude.{◌≡◌, ◌+◌, ◌-◌, ◌*◌, ◌/◌, ◌^◌, ◌≤◌, ◌<◌, length};
ghost use Rattle.bitstream.specs.Outcome.{left, outcome_written};
ghost use Rattle.bitstream.specs.Bits.{field_bits, put_bits};
ghost use Rattle.bitstream.specs.Fields.{se_code};
ghost use Rattle.bitstream.specs.Writing.{put_at, write_bits_at, write_ue_at, write_se_at, write_trailing_at};

use crate::{LAST_START, Refusal};

// Byte x with the n bits of v from its bit k on, the bits before them kept and those after them 0.
fn put_in_byte(x: u8, k: u64, v: u64, n: u64) -> u8
    requires { (k + n ≤ 8) × (v < 2 ^ n) }
    ensures { result ≡ (x / 2 ^ (8 - k) * 2 ^ n + v) * 2 ^ (8 - k - n) }
{
    ((((x as u64 >> (8 - k)) << n) + v) << (8 - k - n)) as u8
}

// The low n bits of v, byte by byte.
fn put_bits(out: &mut [u8], at: usize, v: u64, n: u32)
    requires { (at + n ≤ length out.old * 8) × (n ≤ 64) × (at ≤ 1048576) }
    ensures { out.new ≡ put_bits out.old at (field_bits v n) }
{
    let mut p = at;
    let mut left = n as usize;
    // No index is counted here: a turn writes as many bits as the byte has left.
    while 0 < left {
        let i = p / 8;
        let k = p % 8;
        let c = left.min(8 - k);
        left -= c;
        let bits = (v >> left as u64) % (1 << c as u64);
        out[i] = put_in_byte(out[i], k as u64, bits, c as u64);
        p += c;
    }
}

// The low n bits of v as a field: a start above the limit is refused, then an output that is too short.
fn put_field(out: &mut [u8], at: usize, v: u64, n: u32) -> Result<usize, Refusal>
    requires { n ≤ 64 }
    ensures answer { outcome_written result out.new ≡ put_at out.old at (field_bits v n) }
    ensures bytes { out.new ≡ left out.old (put_at out.old at (field_bits v n)) }
{
    if LAST_START < at {
        return Err(Refusal::InvalidData);
    }
    if n == 0 {
        return Ok(at);
    }
    let end = at + n as usize;
    if out.len() < (end + 7) / 8 {
        return Err(Refusal::OutputTooShort);
    }
    put_bits(out, at, v, n);
    Ok(end)
}

// The low n bits of value, from bit at on.
// A lent array and a bit, here and below, as C hands them over.
pub fn write_bits(out: &mut [u8], at: usize, value: u32, n: u32) -> Result<usize, Refusal>
    ensures answer { outcome_written result out.new ≡ write_bits_at out.old at value n }
    ensures bytes { out.new ≡ left out.old (write_bits_at out.old at value n) }
{
    if 32 < n {
        return Err(Refusal::InvalidData);
    }
    put_field(out, at, value as u64, n)
}

// ue(v), clause 9.2: value + 1 behind as many zeros as it has bits after its first.
pub fn write_ue(out: &mut [u8], at: usize, value: u32) -> Result<usize, Refusal>
    ensures answer { outcome_written result out.new ≡ write_ue_at out.old at value }
    ensures bytes { out.new ≡ left out.old (write_ue_at out.old at value) }
{
    if 4294967295 <= value {
        return Err(Refusal::InvalidData);
    }
    let z = 31 - u32::leading_zeros(value + 1);
    put_field(out, at, (value + 1) as u64, 2 * z + 1)
}

// The ue value that stands for a se value.
fn se_code(value: i32) -> u64
    ensures { result ≡ se_code value }
{
    let v = value as i64;
    if v <= 0 {
        (-v) as u64 * 2
    } else {
        v as u64 * 2 - 1
    }
}

// se(v), clause 9.2.2.
pub fn write_se(out: &mut [u8], at: usize, value: i32) -> Result<usize, Refusal>
    ensures answer { outcome_written result out.new ≡ write_se_at out.old at value }
    ensures bytes { out.new ≡ left out.old (write_se_at out.old at value) }
{
    let k = se_code(value);
    if 4294967295 <= k {
        return Err(Refusal::InvalidData);
    }
    write_ue(out, at, k as u32)
}

// rbsp_trailing_bits(), clause 7.3.2.16: a 1 bit, then zeros to the end of the byte.
pub fn write_rbsp_trailing_bits(out: &mut [u8], at: usize) -> Result<usize, Refusal>
    ensures answer { outcome_written result out.new ≡ write_trailing_at out.old at }
    ensures bytes { out.new ≡ left out.old (write_trailing_at out.old at) }
{
    let k = 7 - at % 8;
    put_field(out, at, 1 << k as u64, k as u32 + 1)
}
