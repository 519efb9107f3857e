// The bits of the lists on their way: they fit into the buffer, so that none of its writes is refused.
ghost use Rattle.std.specs.Prelude.{◌≡◌, ◌+◌, ◌/◌, ◌≤◌, ◌<◌, length, replicate, take};
ghost use Rattle.bitstream.specs.Bits.{put_bits};
ghost use Rattle.bitstream.specs.Outcome.{value};
ghost use Rattle.bitstream.specs.Fields.{se_code, ue_bits};
ghost use Rattle.aps.specs.Elements.{flag, ue_to};
ghost use Rattle.aps.specs.Writes.{writes};

use bitstream::Refusal;
use bitstream::bit_writer::{write_bits, write_se, write_ue};

// The 2,128 bytes that the lists take at most, and 8 of room for the last field. A fixed buffer: no heap is used.
#[derive(Drop)]
pub(crate) struct ListWriter {
    pub(crate) buffer: [u8; 2136],
    pub(crate) at: usize,
    ghost within: { at ≤ 17020 },
}

impl ListWriter {
    ghost use Rattle.hevc_scaling.specs.Inner.{written};

    // Nothing is written.
    pub(crate) fn new() -> Self
        ensures { (result.buffer ≡ replicate 2136 0) × (result.at ≡ 0) }
    {
        ListWriter {
            buffer: [0; 2136],
            at: 0,
        }
    }

    // u(1) as a flag.
    pub(crate) fn flag(&mut self, b: bool) -> Result<(), Refusal>
        requires { self.old.at + 1 ≤ 17020 }
        ensures wrote { written result self.new ≡ writes flag b self.old.buffer self.old.at }
        ensures within { self.new.at ≤ self.old.at + 1 }
    {
        self.at = write_bits(&mut self.buffer, self.at, u32::from(b), 1)?;
        Ok(())
    }

    // ue(v) in 0..most.
    pub(crate) fn ue_to(&mut self, v: u32, most: u32) -> Result<(), Refusal>
        requires { (self.old.at + 5 ≤ 17020) × (most < 6) }
        ensures wrote { written result self.new ≡ writes (ue_to most) v self.old.buffer self.old.at }
        ensures within { self.new.at ≤ self.old.at + 5 }
    {
        if most < v {
            return Err(Refusal::InvalidData);
        }
        self.at = write_ue(&mut self.buffer, self.at, v)?;
        Ok(())
    }

    // se(v) of at most 17 bits.
    pub(crate) fn se(&mut self, v: i32) -> Result<(), Refusal>
        requires { (self.old.at + 17 ≤ 17020) × (se_code v ≤ 510) }
        ensures wrote { written result self.new ≡ value (put_bits self.old.buffer self.old.at (ue_bits (se_code v))) (self.old.at + length (ue_bits (se_code v))) }
        ensures within { self.new.at ≤ self.old.at + 17 }
    {
        self.at = write_se(&mut self.buffer, self.at, v)?;
        Ok(())
    }

    // The bytes that are written, zeros to the end of the last.
    pub(crate) fn bytes(&self) -> &[u8]
        ensures { result.now ≡ take ((self.now.at + 7) / 8) self.now.buffer }
    {
        &self.buffer[..(self.at + 7) / 8]
    }
}
