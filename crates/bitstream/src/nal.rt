// Escapes put in and removed, from a slice into a lent slice. After src/nal.rs.
ghost use Rattle.std.specs.Prelude.{◌≡◌, ◌+◌, ◌≤◌, ◌<◌, ◌&&◌, not, cond, true, ◌++◌, leb, eqb, length, drop, set};
ghost use Rattle.bitstream.specs.Outcome.{left, outcome_written};
ghost use Rattle.bitstream.specs.Escapes.{zero_run, kept, escape, unescape, ebsp_to_rbsp, rbsp_to_ebsp};

use crate::{Input, Refusal};

// The zero bytes at the end: of z zero bytes, unless an 03 was put after them, and then b.
fn zero_run(put: bool, z: usize, b: u8) -> usize
    requires { z < 1000000 }
    ensures { result ≡ zero_run (kept put z) b }
{
    if b == 0 {
        if put { 1 } else { z + 1 }
    } else {
        0
    }
}

// An 03 after 00 00 is an escape; any other byte stays.
fn stays(z: usize, b: u8) -> bool
    ensures { result ≡ not (leb 2 z && eqb b 3) }
{
    z < 2 || b != 3
}

// A byte at most 03 after 00 00 needs an escape.
fn needs_escape(z: usize, b: u8) -> bool
    ensures { result ≡ (leb 2 z && leb b 3) }
{
    z >= 2 && b <= 3
}

// Writes b at o where `yes`, and gives the next place.
fn put_if(out: &mut [u8], o: usize, yes: bool, b: u8) -> usize
    requires { (o ≤ length out.old) × (yes ≡ true → o < length out.old) }
    ensures { (result ≡ cond yes (o + 1) o) × (out.new ≡ cond yes (set out.old o b) out.old) }
{
    if yes {
        out[o] = b;
        return o + 1;
    }
    o
}

// The length with escapes removed. An iterator of these bytes, for this and the write, would carry the same variables and be longer.
fn unescaped_len(src: Input<'_>) -> usize
    ensures { result ≡ length (unescape src.entry.bytes.now) }
{
    let mut z = 0;
    let mut n = 0;
    for &b in src.bytes {
        n += usize::from(stays(z, b));
        z = zero_run(false, z, b);
    }
    n
}

// Writes src with escapes removed into out, which has room for it.
fn unescape_into(src: Input<'_>, out: &mut [u8]) -> usize
    requires { length (unescape src.bytes.now) ≤ length out.old }
    ensures { (result ≡ length (unescape src.entry.bytes.now))
        × (out.new ≡ unescape src.entry.bytes.now ++ drop (length (unescape src.entry.bytes.now)) out.old) }
{
    let mut z = 0;
    let mut o = 0;
    for &b in src.bytes {
        o = put_if(out, o, stays(z, b), b);
        z = zero_run(false, z, b);
    }
    o
}

// The length with escapes put in, beside the write as above.
fn escaped_len(src: Input<'_>) -> usize
    ensures { result ≡ length (escape src.entry.bytes.now) }
{
    let mut z = 0;
    let mut n = 0;
    for &b in src.bytes {
        let put = needs_escape(z, b);
        n += usize::from(put) + 1;
        z = zero_run(put, z, b);
    }
    n + usize::from(z >= 2)
}

// Writes src with escapes put in into out, which has room for it.
fn escape_into(src: Input<'_>, out: &mut [u8]) -> usize
    requires { length (escape src.bytes.now) ≤ length out.old }
    ensures { (result ≡ length (escape src.entry.bytes.now))
        × (out.new ≡ escape src.entry.bytes.now ++ drop (length (escape src.entry.bytes.now)) out.old) }
{
    let mut z = 0;
    let mut o = 0;
    for &b in src.bytes {
        let put = needs_escape(z, b);
        o = put_if(out, o, put, 3);
        o = put_if(out, o, true, b);
        z = zero_run(put, z, b);
    }
    put_if(out, o, z >= 2, 3)
}

// Whether src with escapes removed fits into room bytes: it is never longer than src.
pub fn unescaped_fits(src: Input<'_>, room: usize) -> bool
    ensures { result ≡ leb (length (unescape src.entry.bytes.now)) room }
{
    if src.bytes.len() <= room {
        return true;
    }
    unescaped_len(src) <= room
}

// Whether src with escapes put in fits into room bytes: it is never longer than 3/2 of src.
fn escaped_fits(src: Input<'_>, room: usize) -> bool
    ensures { result ≡ leb (length (escape src.entry.bytes.now)) room }
{
    if src.bytes.len() * 3 / 2 <= room {
        return true;
    }
    escaped_len(src) <= room
}

// The bytes of src with escapes removed, clause 7.3.1.1.
pub fn ebsp_to_rbsp(src: &[u8], out: &mut [u8]) -> Result<usize, Refusal>
    ensures answer { outcome_written result out.new ≡ ebsp_to_rbsp src.now out.old }
    ensures bytes { out.new ≡ left out.old (ebsp_to_rbsp src.now out.old) }
{
    let input = Input::new(src)?;
    if !unescaped_fits(input, out.len()) {
        return Err(Refusal::OutputTooShort);
    }
    Ok(unescape_into(input, out))
}

// The bytes of src with escapes put in, clause 7.4.2.1.
pub fn rbsp_to_ebsp(src: &[u8], out: &mut [u8]) -> Result<usize, Refusal>
    ensures answer { outcome_written result out.new ≡ rbsp_to_ebsp src.now out.old }
    ensures bytes { out.new ≡ left out.old (rbsp_to_ebsp src.now out.old) }
{
    let input = Input::new(src)?;
    if !escaped_fits(input, out.len()) {
        return Err(Refusal::OutputTooShort);
    }
    Ok(escape_into(input, out))
}
