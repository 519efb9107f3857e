// Reads sets from standard input, a name and an RBSP in hexadecimal digits to a line, and writes each name with the answer: the set's fields, or, with one field changed, its bytes.
#![tactic(auto)]

mod order;
mod print;
mod write;

ghost use Rattle.std.specs.Prelude.{◌<◌, ◌≤◌, length};
ghost use Rattle.io.specs.Counts.{IsPrefixLen};

use crate::print::{number, refused, runs, text};
use aps::aps::parse_aps_rbsp;

// The value of a hexadecimal digit; std's to_digit gives none for another character, which has some value here.
fn digit(c: u8) -> u8
    ensures { result < 16 }
{
    if c < b'A' { c % 16 } else { (c % 16 + 9) % 16 }
}

// The bytes that the digits stand for, as many as there is room for.
// Into a lent buffer, with how many there are: no heap is used.
fn decode(digits: &[u8], out: &mut [u8]) -> usize
    ensures { IsPrefixLen result out.new }
{
    let (pairs, _) = digits.as_chunks::<2>();
    for (byte, &[high, low]) in out.iter_mut().zip(pairs) {
        *byte = digit(high) * 16 + digit(low);
    }
    pairs.len().min(out.len())
}

// The first c from `at` on, or the end.
fn find(s: &[u8], at: usize, c: u8) -> usize
    requires { at ≤ length s.now }
    ensures { (at ≤ result) × (result ≤ length s.now) }
{
    s[at..]
        .iter()
        .position(|&b| b == c)
        .map_or(s.len(), |i| at + i)
}

fn answer(rbsp: &[u8]) {
    match parse_aps_rbsp(rbsp) {
        Ok(mut reading) => {
            text(b"bit ");
            number(reading.end as u64);
            runs(&mut reading.value);
        }
        Err(why) => refused(why),
    }
    text(b"\n");
}

fn decoded(digits: &[u8], changed: &[u8]) {
    let mut rbsp = io::buffer();
    let n = decode(digits, &mut rbsp);
    if changed.is_empty() {
        answer(&rbsp[..n]);
        return;
    }
    let mut bytes = [0u8; 9];
    let m = decode(changed, &mut bytes);
    write::answer(&rbsp[..n], &bytes[..m]);
}

// A name, a colon, a space and digits; then a change of one field and the room to write into, or nothing.
fn line(s: &[u8]) {
    let colon = find(s, 0, b':');
    if s.len() - colon < 2 {
        return;
    }
    let digits = colon + 2;
    let space = find(s, digits, b' ');
    let changed = (space + 1).min(s.len());
    text(&s[..digits]);
    decoded(&s[digits..space], &s[changed..]);
}

fn main() {
    // A fixed buffer and how much was read: no heap is used.
    let mut input = io::large_buffer();
    let n = io::read_full(0, &mut input);
    for s in input[..n].split(|&b| b == b'\n') {
        line(s);
    }
}
