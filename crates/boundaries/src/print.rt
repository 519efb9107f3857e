// Words, numbers and bytes to standard output.
use bitstream::Refusal;

// By the toolchain's crate `io`, whose calls answer no error: std's `println!` gives a Result, which every caller here would have to hand on.
pub fn text(s: &[u8]) {
    io::write_all(1, s);
}

pub fn number(n: u64) {
    io::print_decimal(1, n);
}

pub fn signed(v: i64) {
    if v < 0 {
        text(b"-");
    }
    number(v.unsigned_abs());
}

// In capitals, where io's `print_hex` has small letters.
const DIGITS: &[u8; 16] = b"0123456789ABCDEF";

fn byte(b: u8) {
    let b = b as usize;
    text(&[b' ', DIGITS[b / 16], DIGITS[b % 16]]);
}

// The first n bytes of s, or all of them where it has fewer.
pub fn first(s: &[u8], n: usize) {
    for &b in &s[..n.min(s.len())] {
        byte(b);
    }
}

// All bytes of s; of more than 16 how many there are, the first and the last.
pub fn bytes(s: &[u8]) {
    match s {
        [] => text(b" no bytes"),
        [first, .., last] if 16 < s.len() => {
            text(b" ");
            number(s.len() as u64);
            text(b" bytes");
            byte(*first);
            text(b" ..");
            byte(*last);
        }
        _ => first(s, s.len()),
    }
}

pub fn refused(e: Refusal) {
    text(b" refused ");
    number(u32::from(e).into());
}

// Where a call is made, and the bytes that it is given.
pub fn place(at: usize, word: &[u8], given: &[u8]) {
    text(b" at ");
    number(at as u64);
    text(word);
    bytes(given);
    text(b" ->");
}

// A number behind its words, or what was refused; then the whole output.
pub fn answer(words: &[u8], r: Result<usize, Refusal>, out: &[u8]) {
    match r {
        Ok(n) => {
            text(words);
            number(n as u64);
        }
        Err(e) => refused(e),
    }
    text(b":");
    bytes(out);
    end_line();
}

// The bit after a field.
pub fn bit(p: usize) {
    text(b" bit ");
    number(p as u64);
}

// Whether bits were lacking for a field.
pub fn lacking(lacks: bool) {
    if lacks {
        text(b", lacking");
    }
}

pub fn end_line() {
    text(b"\n");
}
