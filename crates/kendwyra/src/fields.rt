// The calls of single fields: 0 with the answer in the lent array, or a refusal's number with the array as it was.
ghost use Rattle.std.specs.Prelude.{◌≡◌, List, ℕ};
ghost use Rattle.bitstream.specs.Outcome.{left, outcome_written};
ghost use Rattle.bitstream.specs.Reading.{outcome_field, is_lacking, outcome_aligned, u_at, u_lacking, ue_at, ue_lacking, se_at, se_lacking, trailing_at};
ghost use Rattle.bitstream.specs.Writing.{write_bits_at, write_ue_at, write_se_at, write_trailing_at};
ghost use Rattle.bitstream.specs.Escapes.{ebsp_to_rbsp, rbsp_to_ebsp};
ghost use Rattle.kendwyra.specs.Codes.{code, place_left};
ghost use Rattle.kendwyra.specs.FieldCodes.{answered, answered_signed, PlaceFits};

use crate::calls::sized;
use bitstream::bit_reader::{BitReader, Field};
use bitstream::{Refusal, bit_writer, nal};

#[tactic(auto, unfolding(crate::specs::Codes::code, crate::specs::FieldCodes::answered))]
fn unsigned(read: Result<Field<u32>, Refusal>, answer: &mut [u64; 3]) -> u32
    ensures code { result ≡ code (outcome_field read) }
    ensures answer { answer.new ≡ answered (outcome_field read) (is_lacking read) answer.old }
{
    match read {
        Ok(field) => {
            *answer = [
                field.value as u64,
                field.next.bit_pos as u64,
                field.lacking as u64,
            ];
            0
        }
        Err(why) => why.into(),
    }
}

// The same of a signed field, whose place is one that an i64 holds: C lends an array of i64 here, and a trait over both would be longer.
#[tactic(auto, unfolding(crate::specs::Codes::code, crate::specs::FieldCodes::answered_signed, crate::specs::FieldCodes::PlaceFits))]
fn signed(read: Result<Field<i32>, Refusal>, answer: &mut [i64; 3]) -> u32
    requires { PlaceFits (outcome_field read) }
    ensures code { result ≡ code (outcome_field read) }
    ensures answer { answer.new ≡ answered_signed (outcome_field read) (is_lacking read) answer.old }
{
    match read {
        Ok(field) => {
            *answer = [
                field.value as i64,
                field.next.bit_pos as i64,
                field.lacking as i64,
            ];
            0
        }
        Err(why) => why.into(),
    }
}

#[unsafe(no_mangle)]
pub extern "C" fn bitstream_u(bytes: &[u8], at: usize, n: u32, answer: &mut [u64; 3]) -> u32
    ensures code { result ≡ code (u_at bytes.now at n) }
    ensures answer { answer.new ≡
        answered (u_at bytes.now at n) (u_lacking bytes.now at n) answer.old }
{
    unsigned((BitReader { bit_pos: at }).u(bytes, n), answer)
}

#[unsafe(no_mangle)]
pub extern "C" fn bitstream_ue(bytes: &[u8], at: usize, answer: &mut [u64; 3]) -> u32
    ensures code { result ≡ code (ue_at bytes.now at) }
    ensures answer { answer.new ≡
        answered (ue_at bytes.now at) (ue_lacking bytes.now at) answer.old }
{
    unsigned((BitReader { bit_pos: at }).ue(bytes), answer)
}

#[unsafe(no_mangle)]
pub extern "C" fn bitstream_se(bytes: &[u8], at: usize, answer: &mut [i64; 3]) -> u32
    ensures code { result ≡ code (se_at bytes.now at) }
    ensures answer { answer.new ≡
        answered_signed (se_at bytes.now at) (se_lacking bytes.now at) answer.old }
{
    signed((BitReader { bit_pos: at }).se(bytes), answer)
}

#[unsafe(no_mangle)]
pub extern "C" fn bitstream_ue_by_table(bytes: &[u8], at: usize, answer: &mut [u64; 3]) -> u32
    ensures code { result ≡ code (ue_at bytes.now at) }
    ensures answer { answer.new ≡
        answered (ue_at bytes.now at) (ue_lacking bytes.now at) answer.old }
{
    unsigned((BitReader { bit_pos: at }).ue_by_table(bytes), answer)
}

#[unsafe(no_mangle)]
pub extern "C" fn bitstream_se_by_table(bytes: &[u8], at: usize, answer: &mut [i64; 3]) -> u32
    ensures code { result ≡ code (se_at bytes.now at) }
    ensures answer { answer.new ≡
        answered_signed (se_at bytes.now at) (se_lacking bytes.now at) answer.old }
{
    signed((BitReader { bit_pos: at }).se_by_table(bytes), answer)
}

#[unsafe(no_mangle)]
#[tactic(auto, unfolding(crate::specs::Codes::code, crate::specs::Codes::place_left))]
pub extern "C" fn bitstream_trailing(bytes: &[u8], at: usize, answer: &mut [u64; 1]) -> u32
    ensures code { result ≡ code (trailing_at bytes.now at) }
    ensures answer { answer.new ≡ place_left (trailing_at bytes.now at) answer.old }
{
    match (BitReader { bit_pos: at }).read_rbsp_trailing_bits(bytes) {
        Ok(after) => {
            answer[0] = after.bit_pos as u64;
            0
        }
        Err(why) => why.into(),
    }
}

#[unsafe(no_mangle)]
pub extern "C" fn bitstream_write_bits(
    out: &mut [u8],
    at: usize,
    value: u32,
    n: u32,
    answer: &mut [u64; 1],
) -> u32
    ensures code { result ≡ code (write_bits_at out.old at value n) }
    ensures answer { answer.new ≡ place_left (write_bits_at out.old at value n) answer.old }
    ensures bytes { out.new ≡ left out.old (write_bits_at out.old at value n) }
{
    sized(bit_writer::write_bits(out, at, value, n), answer)
}

#[unsafe(no_mangle)]
pub extern "C" fn bitstream_write_ue(
    out: &mut [u8],
    at: usize,
    value: u32,
    answer: &mut [u64; 1],
) -> u32
    ensures code { result ≡ code (write_ue_at out.old at value) }
    ensures answer { answer.new ≡ place_left (write_ue_at out.old at value) answer.old }
    ensures bytes { out.new ≡ left out.old (write_ue_at out.old at value) }
{
    sized(bit_writer::write_ue(out, at, value), answer)
}

#[unsafe(no_mangle)]
pub extern "C" fn bitstream_write_se(
    out: &mut [u8],
    at: usize,
    value: i32,
    answer: &mut [u64; 1],
) -> u32
    ensures code { result ≡ code (write_se_at out.old at value) }
    ensures answer { answer.new ≡ place_left (write_se_at out.old at value) answer.old }
    ensures bytes { out.new ≡ left out.old (write_se_at out.old at value) }
{
    sized(bit_writer::write_se(out, at, value), answer)
}

#[unsafe(no_mangle)]
pub extern "C" fn bitstream_write_trailing(out: &mut [u8], at: usize, answer: &mut [u64; 1]) -> u32
    ensures code { result ≡ code (write_trailing_at out.old at) }
    ensures answer { answer.new ≡ place_left (write_trailing_at out.old at) answer.old }
    ensures bytes { out.new ≡ left out.old (write_trailing_at out.old at) }
{
    sized(bit_writer::write_rbsp_trailing_bits(out, at), answer)
}

#[unsafe(no_mangle)]
pub extern "C" fn bitstream_ebsp_to_rbsp(src: &[u8], out: &mut [u8], answer: &mut [u64; 1]) -> u32
    ensures code { result ≡ code (ebsp_to_rbsp src.now out.old) }
    ensures answer { answer.new ≡ place_left (ebsp_to_rbsp src.now out.old) answer.old }
    ensures bytes { out.new ≡ left out.old (ebsp_to_rbsp src.now out.old) }
{
    sized(nal::ebsp_to_rbsp(src, out), answer)
}

#[unsafe(no_mangle)]
pub extern "C" fn bitstream_rbsp_to_ebsp(src: &[u8], out: &mut [u8], answer: &mut [u64; 1]) -> u32
    ensures code { result ≡ code (rbsp_to_ebsp src.now out.old) }
    ensures answer { answer.new ≡ place_left (rbsp_to_ebsp src.now out.old) answer.old }
    ensures bytes { out.new ≡ left out.old (rbsp_to_ebsp src.now out.old) }
{
    sized(nal::rbsp_to_ebsp(src, out), answer)
}
