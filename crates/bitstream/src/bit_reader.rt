// Fields read, highest bit first; bits past the end are 0. After src/bit_reader.rs.
ghost use Rattle.std.specs.Prelude.{◌≡◌, ◌*◌, ◌<◌, length};
ghost use Rattle.bitstream.specs.Bits.{bit_at};
ghost use Rattle.bitstream.specs.Fields.{se_value};
ghost use Rattle.bitstream.specs.Reading.{outcome_field, is_lacking, outcome_aligned};
ghost use Rattle.bitstream.specs.Windows.{window_at, code_in, found};
ghost use Rattle.bitstream.specs.Reading.{u_at, u_lacking, ue_at, ue_lacking, se_at, se_lacking, trailing_at};

use crate::Refusal;
use crate::place::{Place, bits, in_byte};
use crate::short_codes::short_code;
use crate::window::{Code, code_in, window_alone};

// A position in a byte slice, as a bit. The bytes stand beside it in each call: the project fixed a cursor by value, and C passes bytes and bit.
#[derive(Clone, Copy, Debug, PartialEq, Eq)]
pub struct BitReader {
    pub bit_pos: usize,
}

// A field: its value, the position after it, and whether bits were lacking.
// No Option: the Rust gives a value where bits were lacking too.
#[derive(Clone, Copy, Debug, PartialEq, Eq)]
pub struct Field<T> {
    pub value: T,
    pub next: BitReader,
    pub lacking: bool,
}

// Bit p.
fn bit(bytes: &[u8], p: usize) -> u8
    requires { p < length bytes.now * 8 }
    ensures { result ≡ bit_at bytes.now p }
{
    (bytes[p / 8] >> (7 - p % 8) as u8) % 2
}

// The se that a ue stands for.
fn se_value(k: u32) -> i32
    requires { k < 4294967295 }
    ensures { result ≡ se_value k }
{
    if k % 2 == 1 {
        (k / 2 + 1) as i32
    } else {
        -((k / 2) as i32)
    }
}

impl Field<u32> {
    // The se of the same bits.
    fn signed(self) -> Field<i32>
        requires { self.value < 4294967295 }
        ensures value { result.value ≡ se_value self.value }
        ensures next { result.next ≡ self.next }
        ensures lacking { result.lacking ≡ self.lacking }
    {
        Field {
            value: se_value(self.value),
            next: self.next,
            lacking: self.lacking,
        }
    }
}

// A ue of any length.
#[inline(never)]
fn long_ue(place: Place) -> Result<Field<u32>, Refusal>
    ensures field { outcome_field result ≡ ue_at place.entry.bytes.now place.entry.bit }
    ensures lacking { is_lacking result ≡ ue_lacking place.entry.bytes.now place.entry.bit }
{
    let z = place.leading_zeros();
    if 32 <= z {
        return Err(Refusal::InvalidData);
    }
    let s = place.suffix(z);
    Ok(Field {
        value: (1 << z) - 1 + bits(place.bytes, s, z),
        next: BitReader {
            bit_pos: s + z as usize,
        },
        lacking: place.lacks(2 * z + 1),
    })
}

// A ue that was looked for at the start of the window at its place. Inlined, the code and the field stay in registers; a longer code is a call.
#[inline(always)]
fn ue_of(place: Place, code: Option<Code>) -> Result<Field<u32>, Refusal>
    requires { found code ≡ code_in (window_at place.bytes.now place.bit) }
    ensures field { outcome_field result ≡ ue_at place.entry.bytes.now place.entry.bit }
    ensures lacking { is_lacking result ≡ ue_lacking place.entry.bytes.now place.entry.bit }
{
    match code {
        Some(short) => Ok(Field {
            value: short.value,
            next: BitReader {
                bit_pos: place.bit + short.bits as usize,
            },
            lacking: place.lacks(short.bits as u32),
        }),
        None => long_ue(place),
    }
}

impl BitReader {
    // u(n), clause 7.2.
    pub fn u(self, bytes: &[u8], n: u32) -> Result<Field<u32>, Refusal>
        ensures field { outcome_field result ≡ u_at bytes.now self.bit_pos n }
        ensures lacking { is_lacking result ≡ u_lacking bytes.now self.bit_pos n }
    {
        let place = Place::new(bytes, self.bit_pos)?;
        if 32 < n {
            return Err(Refusal::InvalidData);
        }
        Ok(Field {
            value: place.bits(n),
            next: BitReader {
                bit_pos: self.bit_pos + n as usize,
            },
            lacking: place.lacks(n),
        })
    }

    // ue(v), clause 9.2, in its order: leadingZeroBits counted, the suffix read, the sum.
    pub fn ue(self, bytes: &[u8]) -> Result<Field<u32>, Refusal>
        ensures field { outcome_field result ≡ ue_at bytes.now self.bit_pos }
        ensures lacking { is_lacking result ≡ ue_lacking bytes.now self.bit_pos }
    {
        let p = self.bit_pos;
        let place = Place::new(bytes, p)?;
        let end = bytes.len() * 8;
        let mut q = p;
        let mut zeros: u32 = 0;
        // for( b = 0; !b; leadingZeroBits++ ) b = read_bits( 1 ): the clause's own loop, which yields the zeros.
        // No `for`: a 1 bit ends it, wherever that stands, and it gives what it counted.
        let leading_zero_bits = loop {
            // Not in the clause: the input's end stops the zeros, and has no 1 bit to pass.
            if end <= q {
                break zeros;
            }
            let b = bit(bytes, q);
            q += 1;
            if b == 1 {
                break zeros;
            }
            zeros += 1;
            // Not in the clause: 32 zeros are refused.
            if 32 <= zeros {
                return Err(Refusal::InvalidData);
            }
        };
        // read_bits( leadingZeroBits )
        let suffix = bits(bytes, q, leading_zero_bits);
        let after = q + leading_zero_bits as usize;
        // codeNum = 2^leadingZeroBits - 1 + read_bits( leadingZeroBits )
        let code_num = (1 << leading_zero_bits) - 1 + suffix;
        Ok(Field {
            value: code_num,
            next: BitReader { bit_pos: after },
            lacking: place.lacks(2 * leading_zero_bits + 1),
        })
    }

    // se(v), clause 9.2.2.
    pub fn se(self, bytes: &[u8]) -> Result<Field<i32>, Refusal>
        ensures field { outcome_field result ≡ se_at bytes.now self.bit_pos }
        ensures lacking { is_lacking result ≡ se_lacking bytes.now self.bit_pos }
    {
        let place = Place::new(bytes, self.bit_pos)?;
        Ok(ue_of(place, code_in(window_alone(bytes, self.bit_pos)))?.signed())
    }

    // ue(v), a short one by the table. Beside `ue`, which goes by the steps of clause 9.2 and needs none. Inlined: as a call it was slower.
    #[inline(always)]
    pub fn ue_by_table(self, bytes: &[u8]) -> Result<Field<u32>, Refusal>
        ensures field { outcome_field result ≡ ue_at bytes.now self.bit_pos }
        ensures lacking { is_lacking result ≡ ue_lacking bytes.now self.bit_pos }
    {
        let place = Place::new(bytes, self.bit_pos)?;
        ue_of(place, short_code(window_alone(bytes, self.bit_pos)))
    }

    // se(v), a short one by the table.
    pub fn se_by_table(self, bytes: &[u8]) -> Result<Field<i32>, Refusal>
        ensures field { outcome_field result ≡ se_at bytes.now self.bit_pos }
        ensures lacking { is_lacking result ≡ se_lacking bytes.now self.bit_pos }
    {
        Ok(self.ue_by_table(bytes)?.signed())
    }

    // rbsp_trailing_bits(), clause 7.3.2.16: a 1 bit, then zeros to the end of the byte.
    pub fn read_rbsp_trailing_bits(self, bytes: &[u8]) -> Result<BitReader, Refusal>
        ensures { outcome_aligned result ≡ trailing_at bytes.now self.bit_pos }
    {
        let place = Place::new(bytes, self.bit_pos)?;
        if bytes.len() * 8 <= self.bit_pos {
            return Err(Refusal::UnexpectedEnd);
        }
        let k = (7 - self.bit_pos % 8) as u32;
        if in_byte(place.bytes, place.bit, k + 1) == 1 << k {
            Ok(BitReader {
                bit_pos: self.bit_pos + k as usize + 1,
            })
        } else {
            Err(Refusal::InvalidData)
        }
    }
}
