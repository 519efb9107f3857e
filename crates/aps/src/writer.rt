// The fields of a set, written into a buffer that refuses none of them: as the description writes them, and 2 where it does not take a value.
ghost use Rattle.std.specs.Prelude.{◌≡◌, ◌+◌, ◌*◌, ◌/◌, ◌≤◌, ◌<◌, pos, negsuc, length, replicate, take, OnOk};
ghost use Rattle.bitstream.specs.Outcome.{value};
ghost use Rattle.bitstream.specs.Bits.{put_bits};
ghost use Rattle.bitstream.specs.Fields.{ue_zeros, trailing_bits};
ghost use Rattle.aps.specs.Codec.{u};
ghost use Rattle.aps.specs.Elements.{flag, ue_to, se_in, signed};
ghost use Rattle.aps.specs.AlfSyntax.{coefficient};

use crate::LONGEST_RBSP;
use crate::inferred::unsent;
use bitstream::Refusal;
use bitstream::bit_writer::{write_bits, write_rbsp_trailing_bits, write_se, write_ue};

// The bits of a set on their way: `at` of them are written, of which those in the first 2,048 bytes of the buffer are kept. Each part says what room it asks and what it takes, since these differ. A fixed buffer: no heap is used.
#[derive(Drop)]
pub(crate) struct Writer {
    pub(crate) buffer: [u8; 2064],
    pub(crate) at: usize,
    ghost within: { at ≤ 32768 },
}

impl Writer {
    ghost use Rattle.aps.specs.Writes.{Wrote, written, kept, place_of};

    // Nothing is written.
    pub(crate) fn new() -> Self
        ensures { (result.buffer ≡ replicate 2064 0) × (result.at ≡ 0) }
    {
        Writer {
            buffer: [0; 2064],
            at: 0,
        }
    }

    // Where the next field is put: behind the bytes that are kept it goes into the 16 after them, at the same bit of a byte, so that no write is refused.
    fn place(&self) -> usize
        ensures { result ≡ place_of self.now.at }
    {
        if self.at < 8 * LONGEST_RBSP {
            self.at
        } else {
            8 * LONGEST_RBSP + self.at % 8
        }
    }

    // u(n).
    pub(crate) fn u(&mut self, v: u32, n: u32) -> Result<(), Refusal>
        requires { (self.old.at ≤ 32700) × (n ≤ 32) }
        ensures wrote { Wrote (u n) v self.old self.new result }
        ensures within { self.new.at ≤ self.old.at + n }
    {
        if 1u64 << n as u64 <= v as u64 {
            return Err(Refusal::InvalidData);
        }
        let place = self.place();
        let end = write_bits(&mut self.buffer, place, v, n)?;
        self.at += end - place;
        Ok(())
    }

    // u(1) as a flag.
    pub(crate) fn flag(&mut self, b: bool) -> Result<(), Refusal>
        requires { self.old.at ≤ 32700 }
        ensures wrote { Wrote flag b self.old self.new result }
        ensures within { self.new.at ≤ self.old.at + 1 }
    {
        self.u(u32::from(b), 1)
    }

    // ue(v) in 0..most.
    pub(crate) fn ue_to(&mut self, v: u32, most: u32) -> Result<(), Refusal>
        requires { (self.old.at ≤ 32700) × (most < 4294967295) }
        ensures wrote { Wrote (ue_to most) v self.old self.new result }
        ensures within { self.new.at ≤ self.old.at + (2 * ue_zeros most + 1) }
        ensures taken { OnOk result (v ≤ most) }
    {
        if most < v {
            return Err(Refusal::InvalidData);
        }
        let place = self.place();
        let end = write_ue(&mut self.buffer, place, v)?;
        self.at += end - place;
        Ok(())
    }

    // se(v) in -128..127.
    pub(crate) fn se8(&mut self, v: i32) -> Result<(), Refusal>
        requires { self.old.at ≤ 32700 }
        ensures wrote { Wrote (se_in (negsuc 127) (pos 127)) v self.old self.new result }
        ensures within { self.new.at ≤ self.old.at + 17 }
    {
        if v < -128 || 127 < v {
            return Err(Refusal::InvalidData);
        }
        let place = self.place();
        let end = write_se(&mut self.buffer, place, v)?;
        self.at += end - place;
        Ok(())
    }

    // A magnitude u(n), and its sign if it is not 0.
    pub(crate) fn signed(&mut self, abs: u32, sign: bool, n: u32) -> Result<(), Refusal>
        requires { (self.old.at ≤ 32600) × (n ≤ 32) }
        ensures wrote { Wrote (signed (u n)) (abs, sign) self.old self.new result }
        ensures within { self.new.at ≤ self.old.at + (n + 1) }
    {
        self.u(abs, n)?;
        if abs == 0 {
            return unsent(!sign);
        }
        self.flag(sign)
    }

    // A magnitude in 0..128, and its sign if it is not 0: the sign is one bit more of the same field.
    pub(crate) fn coefficient(&mut self, abs: u32, sign: bool) -> Result<(), Refusal>
        requires { self.old.at ≤ 32600 }
        ensures wrote { Wrote coefficient (abs, sign) self.old self.new result }
        ensures within { self.new.at ≤ self.old.at + 16 }
    {
        if 128 < abs {
            return Err(Refusal::InvalidData);
        }
        if abs == 0 {
            unsent(!sign)?;
            return self.u(1, 1);
        }
        let code = abs + 1;
        let zeros = 31 - u32::leading_zeros(code);
        self.u(2 * code + u32::from(sign), 2 * zeros + 2)
    }

    // The stop bit and zeros to the end of the byte.
    pub(crate) fn trailing_bits(&mut self) -> Result<(), Refusal>
        requires { self.old.at ≤ 32700 }
        ensures wrote { written result self.new ≡ value (put_bits (kept self.old) self.old.at (trailing_bits self.old.at)) (self.old.at + length (trailing_bits self.old.at)) }
        ensures within { self.new.at ≤ self.old.at + 8 }
    {
        let place = self.place();
        let end = write_rbsp_trailing_bits(&mut self.buffer, place)?;
        self.at += end - place;
        Ok(())
    }

    // The whole bytes that are written.
    pub(crate) fn bytes(&self) -> &[u8]
        requires { self.now.at ≤ 16384 }
        ensures { result.now ≡ take (self.now.at / 8) (kept self.now) }
    {
        &self.buffer[..self.at / 8]
    }
}
