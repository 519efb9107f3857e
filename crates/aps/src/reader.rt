// The fields of an input of at most 65,536 bytes, one after another.
ghost use Rattle.std.specs.Prelude.{◌≡◌, false, ◌+◌, ◌*◌, ◌≤◌, ◌<◌, ltb, nat_abs, length};
ghost use Rattle.bitstream.specs.Fields.{se_value};
ghost use Rattle.bitstream.specs.Windows.{IsWindow};

use bitstream::bit_reader::BitReader;
use bitstream::short_codes::short_code;
use bitstream::window::window;
use bitstream::{Input, Refusal};

// The `left` highest of `bits` are the bits from bit `at` on, zeros past the end.
// Lent to its methods and not moved through them: a refusal leaves it where it was. The bytes and not an Input: an Input in it would be named through at each clause and proof, for one ghost line less.
#[derive(Clone, Copy)]
pub(crate) struct Reader<'a> {
    bytes: &'a [u8],
    at: usize,
    bits: u64,
    left: u64,
    ghost short: { length bytes.now ≤ 65536 },
    ghost inside: { at ≤ length bytes.now * 8 },
    ghost known: { IsWindow bytes.now at left bits },
}

// What every field passes is inlined into the loops that read, each on a copy of the reader, so that it stays in registers.
impl<'a> Reader<'a> {
    ghost use Rattle.std.specs.Prelude.{pos, negsuc};
    ghost use Rattle.bitstream.specs.Fields.{read_trailing};
    ghost use Rattle.aps.specs.Codec.{u, ue, when};
    ghost use Rattle.aps.specs.Elements.{flag, no_flag, ue_to, se_in, signed};
    ghost use Rattle.aps.specs.AlfSyntax.{coefficient};
    ghost use Rattle.aps.specs.Reads.{given, Reads, ReadsOn, Stands};

    // From the first bit on.
    pub(crate) fn new(input: Input<'a>) -> Self
        ensures { (result.bytes.now ≡ input.entry.bytes.now) × (result.at ≡ 0) }
    {
        Reader {
            bytes: input.bytes,
            at: 0,
            bits: 0,
            left: 0,
        }
    }

    // The bit where the next field stands.
    pub(crate) fn at(&self) -> usize
        ensures { result ≡ self.now.at }
    {
        self.at
    }

    // The same place with `need` bits or more.
    #[inline(always)]
    fn fill(&mut self, need: u64)
        requires { need ≤ 57 }
        ensures { Stands self.old self.new × (need ≤ self.new.left) }
    {
        if self.left < need {
            self.bits = window(self.bytes, self.at);
            self.left = 57;
        }
    }

    // Whether n bits pass the input's end.
    #[inline(always)]
    fn lacks(&self, n: u64) -> bool
        requires { n ≤ 64 }
        ensures { result ≡ ltb (length self.now.bytes.now * 8) (self.now.at + n) }
    {
        self.bytes.len() * 8 < self.at + n as usize
    }

    // n bits on; `most` are counted off, so that the word is filled again after as many fields whatever their bits are.
    #[inline(always)]
    fn pass(&mut self, n: u64, most: u64)
        requires { (n ≤ most) × (most ≤ self.old.left) × (most ≤ 57) × (self.old.at + n ≤ length self.old.bytes.now * 8) }
        ensures { (self.new.bytes.now ≡ self.old.bytes.now) × (self.new.at ≡ self.old.at + n) }
    {
        self.bits = self.bits << n;
        self.left -= most;
        self.at += n as usize;
    }

    // u(n), 1 <= n <= 32.
    #[inline(always)]
    pub(crate) fn u(&mut self, n: u32, most: u64) -> Result<u32, Refusal>
        requires { (1 ≤ n) × (n ≤ most) × (most ≤ 32) }
        ensures { Reads (u n) (given result self.new.at) self.old self.new }
    {
        let width = n as u64;
        self.fill(most);
        if self.lacks(width) {
            return Err(Refusal::UnexpectedEnd);
        }
        let value = (self.bits >> (64 - width)) as u32;
        self.pass(width, most);
        Ok(value)
    }

    // u(1) as a flag.
    #[inline(always)]
    pub(crate) fn flag(&mut self) -> Result<bool, Refusal>
        ensures { Reads flag (given result self.new.at) self.old self.new }
    {
        let bit = self.u(1, 1)?;
        Ok(bit != 0)
    }

    // The same where it is sent, else false.
    pub(crate) fn flag_if(&mut self, sent: bool) -> Result<bool, Refusal>
        ensures { Reads (when sent no_flag flag) (given result self.new.at) self.old self.new }
    {
        if sent { self.flag() } else { Ok(false) }
    }

    // A magnitude u(n), and its sign if it is not 0.
    #[inline(always)]
    pub(crate) fn signed(&mut self, n: u32) -> Result<(u32, bool), Refusal>
        requires { (1 ≤ n) × (n ≤ 16) }
        ensures { Reads (signed (u n)) (given result self.new.at) self.old self.new }
    {
        let width = n as u64;
        self.fill(width + 1);
        let abs = (self.bits >> (64 - width)) as u32;
        let sent = u64::from(abs != 0);
        if self.lacks(width + sent) {
            return Err(Refusal::UnexpectedEnd);
        }
        let sign = (self.bits >> (63 - width)) % 2 * sent == 1;
        self.pass(width + sent, width + 1);
        Ok((abs, sign))
    }

    // ue(v), of any length.
    #[inline(always)]
    fn long_ue(&mut self) -> Result<u32, Refusal>
        ensures { Reads ue (given result self.new.at) self.old self.new }
    {
        let field = (BitReader { bit_pos: self.at }).ue(self.bytes)?;
        if field.lacking {
            return Err(Refusal::UnexpectedEnd);
        }
        self.at = field.next.bit_pos;
        self.left = 0;
        Ok(field.value)
    }

    // ue(v), looked for among the short codes first.
    #[inline(always)]
    pub(crate) fn ue(&mut self) -> Result<u32, Refusal>
        ensures { Reads ue (given result self.new.at) self.old self.new }
    {
        self.fill(17);
        if let Some(code) = short_code(self.bits) {
            if !self.lacks(code.bits) {
                self.pass(code.bits, 17);
                return Ok(code.value);
            }
        }
        self.long_ue()
    }

    // ue(v) in 0..most.
    pub(crate) fn ue_to(&mut self, most: u32) -> Result<u32, Refusal>
        ensures { Reads (ue_to most) (given result self.new.at) self.old self.new }
    {
        let value = self.ue()?;
        if most < value {
            return Err(Refusal::InvalidData);
        }
        Ok(value)
    }

    // se(v) in -128..127.
    #[inline(always)]
    pub(crate) fn se8(&mut self) -> Result<i32, Refusal>
        ensures { Reads (se_in (negsuc 127) (pos 127)) (given result self.new.at) self.old self.new }
    {
        let k = self.ue()?;
        if 254 < k && k != 256 {
            return Err(Refusal::InvalidData);
        }
        Ok(se_of(k))
    }

    // rbsp_trailing_bits(): a 1 bit, then zeros to the end of the byte.
    pub(crate) fn trailing(&mut self) -> Result<(), Refusal>
        ensures field { given result self.new.at ≡ read_trailing self.old.bytes.now self.old.at }
        ensures bytes { self.new.bytes.now ≡ self.old.bytes.now }
    {
        let next = (BitReader { bit_pos: self.at }).read_rbsp_trailing_bits(self.bytes)?;
        self.at = next.bit_pos;
        self.left = 0;
        Ok(())
    }

    // A magnitude in 0..128, and its sign if it is not 0: at most 17 bits and the sign, which is sent unless the first bit is 1.
    #[inline(always)]
    pub(crate) fn coefficient(&mut self) -> Result<(u32, bool), Refusal>
        ensures { Reads coefficient (given result self.new.at) self.old self.new }
    {
        self.fill(18);
        let sent = 1 - (self.bits >> 63);
        if let Some(code) = short_code(self.bits) {
            let size = code.bits;
            let abs = code.value;
            if abs <= 128 {
                if !self.lacks(size + sent) {
                    let sign = (self.bits >> (63 - size)) % 2 * sent == 1;
                    self.pass(size + sent, 18);
                    return Ok((abs, sign));
                }
            }
        }
        let (field, next) = self.long_coefficient()?;
        *self = next;
        Ok(field)
    }

    // One that the word does not hold, or that is refused, and the reader after it.
    #[inline(never)]
    fn long_coefficient(mut self) -> Result<((u32, bool), Self), Refusal>
        ensures { ReadsOn coefficient result self.entry }
    {
        let abs = self.ue_to(128)?;
        if abs == 0 {
            return Ok(((abs, false), self));
        }
        let sign = self.flag()?;
        Ok(((abs, sign), self))
    }
}

// The se that a short ue stands for. That of bitstream asks for the ue's range too, which no public function may.
fn se_of(k: u32) -> i32
    requires { k < 1000 }
    ensures { (result ≡ se_value k) × (nat_abs result ≤ 500) }
{
    if k % 2 == 1 {
        return (k / 2 + 1) as i32;
    }
    -((k / 2) as i32)
}
