// Every small set, a line each.
ghost use Rattle.std.specs.Prelude.{◌≡◌, ◌+◌, ◌*◌, ◌≤◌, ◌<◌, ◌^◌, length};
ghost use Rattle.bitstream.specs.Outcome.{left, outcome_written};
ghost use Rattle.bitstream.specs.Escapes.{put_bytes};
ghost use Rattle.small_sets.specs.Small.{is_small, bytes_of, just_if, small_below, small_sets};
ghost use Rattle.small_sets.specs.Lines.{digit, line, lines};
ghost use Rattle.small_sets.specs.Inner.{Put};

use aps::LONGEST_RBSP;
use aps::aps::parse_aps_head;
use bitstream::Refusal;

// A set with extension flag 0 that is read to its last byte.
pub fn is_small(rbsp: &[u8]) -> bool
    ensures { result ≡ is_small rbsp.now }
{
    if LONGEST_RBSP < rbsp.len() {
        return false;
    }
    match parse_aps_head(rbsp) {
        Ok(reading) => !reading.value.aps_extension_flag && reading.end == 8 * rbsp.len(),
        Err(_) => false,
    }
}

#[tactic(auto, unfolding(crate::specs::Lines::digit))]
fn digit(n: u8) -> u8
    requires { n < 16 }
    ensures { result ≡ digit n }
{
    if n < 10 { 48 + n } else { 55 + n }
}

// The line of some bytes, into as much room as it takes.
fn write_line(rbsp: &[u8], out: &mut [u8])
    requires { length out.old ≡ length (line rbsp.now) }
    ensures { out.new ≡ line rbsp.now }
{
    for (i, &b) in rbsp.iter().enumerate() {
        let at = 3 * i;
        let separator = if i + 1 == rbsp.len() { 10 } else { 32 };
        out[at..at + 3].copy_from_slice(&[digit(b / 16), digit(b % 16), separator]);
    }
}

// The line of some bytes from place p on, where the buffer has room for it; the place behind it.
fn put_line(rbsp: &[u8], p: usize, out: &mut [u8]) -> usize
    requires { (p ≤ 2 ^ 40) × (length rbsp.now ≤ 3) }
    ensures { Put (line rbsp.now) p result out.old out.new }
{
    let q = p + 3 * rbsp.len();
    if q <= out.len() {
        write_line(rbsp, &mut out[p..q]);
    }
    q
}

// The line of a number's bytes, 2 or 3, if they are a small set.
fn put_if_small(len: usize, n: u32, p: usize, out: &mut [u8]) -> usize
    requires { (p ≤ 2 ^ 40) × (2 ≤ len) × (len ≤ 3) }
    ensures { Put (lines (just_if (is_small (bytes_of len n)) (bytes_of len n))) p result out.old out.new }
{
    let three = [
        (n / 65536 % 256) as u8,
        (n / 256 % 256) as u8,
        (n % 256) as u8,
    ];
    let rbsp = &three[3 - len..];
    if !is_small(rbsp) {
        return p;
    }
    put_line(rbsp, p, out)
}

// The lines of the small sets of 2 or 3 bytes, by the numbers below n.
fn put_below(len: usize, n: u32, p: usize, out: &mut [u8]) -> usize
    requires { (p ≤ 2 ^ 30) × (n ≤ 16777216) × (2 ≤ len) × (len ≤ 3) }
    ensures put { Put (lines (small_below len n)) p result out.old out.new }
    ensures within { result ≤ p + 9 * n }
{
    let mut q = p;
    for i in 0..n {
        q = put_if_small(len, i, q, out);
    }
    q
}

// All lines from the start on, where the buffer has room for them; how many bytes they are.
fn put_small_sets(out: &mut [u8]) -> usize
    ensures { Put (lines small_sets) 0 result out.old out.new }
{
    let p = put_below(2, 65536, 0, out);
    put_below(3, 16777216, p, out)
}

// A line for each small set, those of two bytes first, rising: how many bytes they are. 5.
pub fn write_small_sets(out: &mut [u8]) -> Result<usize, Refusal>
    ensures answer { outcome_written result out.new ≡ put_bytes out.old (lines small_sets) }
    ensures bytes { out.new ≡ left out.old (put_bytes out.old (lines small_sets)) }
{
    // The first pass has no room for any line and counts their bytes.
    let size = put_small_sets(&mut []);
    if out.len() < size {
        return Err(Refusal::OutputTooShort);
    }
    Ok(put_small_sets(out))
}
