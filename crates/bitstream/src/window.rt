// Windows: the next bits of an input as the highest of a word, and the ue at its start.
ghost use Rattle.std.specs.Prelude.{◌≡◌, ◌+◌, ◌*◌, ◌≤◌, ◌<◌, length};
ghost use Rattle.bitstream.specs.Bits.{field_at};
ghost use Rattle.bitstream.specs.Windows.{window_at, code_in, found};

// The eight bytes from byte i on, as one number: one load.
fn eight(bytes: &[u8], i: usize) -> u64
    requires { i + 8 ≤ length bytes.now }
    ensures { result ≡ field_at bytes.now (i * 8) 64 }
{
    u64::from_be_bytes(*bytes[i..].first_chunk().unwrap())
}

// The bytes from byte i on, fewer than eight and the last of them, as the highest of a number. Copied into eight zeros, they would be a call of memcpy. A call of its own: inlined, its loop takes registers from every reader of a field.
#[inline(never)]
fn few(bytes: &[u8], i: usize) -> u64
    requires { (i < length bytes.now) × (length bytes.now < i + 8) }
    ensures { result ≡ field_at bytes.now (i * 8) 64 }
{
    let mut w: u64 = 0;
    for &b in &bytes[i..] {
        w = w * 256 + b as u64;
    }
    w << (64 - (bytes.len() - i) * 8) as u64
}

// The 64 - p % 8 bits from bit p on, zeros past the end, as the highest of a word whose rest is 0.
pub fn window(bytes: &[u8], p: usize) -> u64
    ensures { result ≡ window_at bytes.now p }
{
    let i = p / 8;
    if i + 8 <= bytes.len() {
        return eight(bytes, i) << (p % 8) as u64;
    }
    window_alone(bytes, p)
}

// The same of an input of eight bytes or more. Near the end it is the last eight bytes, moved up.
#[inline(always)]
pub(crate) fn window_long(bytes: &[u8], p: usize) -> u64
    requires { 8 ≤ length bytes.now }
    ensures { result ≡ window_at bytes.now p }
{
    let n = bytes.len();
    let i = p / 8;
    if i + 8 <= n {
        return eight(bytes, i) << (p % 8) as u64;
    }
    if n <= i {
        return 0;
    }
    let from = n - 8;
    eight(bytes, from) << (p - from * 8) as u64
}

// The same, of any input.
pub fn window_alone(bytes: &[u8], p: usize) -> u64
    ensures { result ≡ window_at bytes.now p }
{
    let n = bytes.len();
    if 8 <= n {
        return window_long(bytes, p);
    }
    let byte = p / 8;
    if n <= byte {
        return 0;
    }
    few(bytes, byte) << (p % 8) as u64
}

// A ue at the start of a word: its value and its bits.
#[derive(Clone, Copy, Debug, PartialEq, Eq)]
pub struct Code {
    pub value: u32,
    pub bits: u64,
}

// One of at most 8 zeros, by its leading zeros.
pub fn code_in(w: u64) -> Option<Code>
    ensures { found result ≡ code_in w }
{
    let z = w.leading_zeros() as u64;
    if 8 < z {
        return None;
    }
    Some(Code {
        value: (w >> (63 - 2 * z)) as u32 - 1,
        bits: 2 * z + 1,
    })
}
