// A place at which a field may start, and the bits from there on.
ghost use Rattle.std.specs.Prelude.{◌≡◌, ◌+◌, ◌*◌, ◌/◌, ◌%◌, ◌^◌, ◌≤◌, ◌<◌, length, get_or, IfOk, OnOk, IfErr};
ghost use Rattle.bitstream.specs.Outcome.{refused, number};
ghost use Rattle.bitstream.specs.Bits.{field_at};
ghost use Rattle.bitstream.specs.Fields.{lacks, zeros_at, suffix_at};
ghost use Rattle.bitstream.specs.Reading.{started};

use crate::window::window_long;
use crate::{Input, LAST_START, Refusal};

// Bit `bit` of an input; neither is over its limit. The bytes and not an Input: an Input in it would be named through at each clause and proof, for one ghost line less.
#[derive(Clone, Copy)]
pub(crate) struct Place<'a> {
    pub(crate) bytes: &'a [u8],
    pub(crate) bit: usize,
    ghost short: { length bytes.now ≤ 65536 },
    ghost start: { bit ≤ 1048576 },
}

// Byte i, or 0 past the end.
fn byte_or_zero(bytes: &[u8], i: usize) -> u64
    ensures { (result ≡ get_or bytes.now i 0) × (result < 256) }
{
    if i < bytes.len() { bytes[i] as u64 } else { 0 }
}

// The three bytes from byte i on, as one number.
fn three(bytes: &[u8], i: usize) -> u64
    requires { i ≤ 2305843009213693951 }
    ensures { (result ≡ field_at bytes.now (i * 8) 24) × (result < 16777216) }
{
    (byte_or_zero(bytes, i) * 256 + byte_or_zero(bytes, i + 1)) * 256 + byte_or_zero(bytes, i + 2)
}

// The five bytes from byte i on, as one number.
fn five(bytes: &[u8], i: usize) -> u64
    requires { i ≤ 2305843009213693951 }
    ensures { (result ≡ field_at bytes.now (i * 8) 40) × (result < 1099511627776) }
{
    (three(bytes, i) * 256 + byte_or_zero(bytes, i + 3)) * 256 + byte_or_zero(bytes, i + 4)
}

// The n bits of w before its last `unread`.
fn cut(w: u64, unread: u64, n: u32) -> u32
    requires { (n ≤ 32) × (unread < 64) }
    ensures { result ≡ w / 2 ^ unread % 2 ^ n }
{
    ((w >> unread) % (1 << n as u64)) as u32
}

// The n bits from bit p on: three bytes hold any field of 17 bits, five one of 32.
#[inline(always)]
fn wide(bytes: &[u8], p: usize, n: u32) -> u32
    requires { n ≤ 32 }
    ensures { result ≡ field_at bytes.now p n }
{
    if n <= 17 {
        cut(three(bytes, p / 8), 24 - (p % 8) as u64 - n as u64, n)
    } else {
        cut(five(bytes, p / 8), 40 - (p % 8) as u64 - n as u64, n)
    }
}

// The same where one byte holds them: no window is put together for a flag or for padding.
pub(crate) fn in_byte(bytes: &[u8], p: usize, n: u32) -> u32
    requires { p % 8 + n ≤ 8 }
    ensures { result ≡ field_at bytes.now p n }
{
    let up = (byte_or_zero(bytes, p / 8) << (p % 8) as u64) % 256;
    (up >> (8 - n as u64)) as u32
}

// The same, out of the window: an input of fewer than eight bytes has none that is one load. Inlined: as a call it was slower.
#[inline(always)]
pub(crate) fn bits(bytes: &[u8], p: usize, n: u32) -> u32
    requires { n ≤ 32 }
    ensures { result ≡ field_at bytes.now p n }
{
    if bytes.len() < 8 {
        return wide(bytes, p, n);
    }
    (window_long(bytes, p) >> 32 >> (32 - n as u64)) as u32
}

impl<'a> Place<'a> {
    // 4: the input is too long; 2: the start is above the last one.
    pub(crate) fn new(bytes: &'a [u8], bit: usize) -> Result<Self, Refusal>
        ensures ok { IfOk result (λ place. (place.bytes.now ≡ bytes.now) × (place.bit ≡ bit)) }
        ensures inside { OnOk result ((length bytes.now ≤ 65536) × (bit ≤ 1048576)) }
        ensures err { IfErr result (λ why. started bytes.now bit ≡ refused (number why)) }
    {
        let input = Input::new(bytes)?;
        if LAST_START < bit {
            return Err(Refusal::InvalidData);
        }
        Ok(Place {
            bytes: input.bytes,
            bit,
        })
    }

    // Whether n bits from here on pass the input's last bit.
    pub(crate) fn lacks(self, n: u32) -> bool
        ensures { result ≡ lacks self.entry.bytes.now self.entry.bit n }
    {
        n != 0 && self.bytes.len() * 8 < self.bit + n as usize
    }

    // The n bits from here on.
    #[inline(always)]
    pub(crate) fn bits(self, n: u32) -> u32
        requires { n ≤ 32 }
        ensures { result ≡ field_at self.entry.bytes.now self.entry.bit n }
    {
        if self.bit % 8 + n as usize <= 8 {
            return in_byte(self.bytes, self.bit, n);
        }
        bits(self.bytes, self.bit, n)
    }

    // The 0 bits from here on, up to a 1 bit, the input's end, or 32 of them.
    pub(crate) fn leading_zeros(self) -> u32
        ensures { (result ≡ zeros_at self.entry.bytes.now self.entry.bit 32) × (result ≤ 32) }
    {
        let end = self.bytes.len() * 8;
        if end <= self.bit {
            return 0;
        }
        let z = self.bits(32).leading_zeros();
        let left = end - self.bit;
        if left < z as usize { left as u32 } else { z }
    }

    // Where the suffix of a ue with z zeros begins: there is no 1 bit to pass where the input's end stopped the zeros.
    pub(crate) fn suffix(self, z: u32) -> usize
        requires { z ≤ 32 }
        ensures { (result ≡ suffix_at self.entry.bytes.now self.entry.bit z) × (result ≤ self.entry.bit + z + 1) }
    {
        let q = self.bit + z as usize;
        if q < self.bytes.len() * 8 { q + 1 } else { q }
    }
}
