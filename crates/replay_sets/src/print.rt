// Words, numbers, bytes and sets to standard output.
// The few calls that `boundaries` has too: a crate for both would be longer than they are.
use crate::order::{Field, Visitor, visit};
use aps::aps::VvcAps;
use bitstream::Refusal;

// By the toolchain's crate `io`, whose calls answer no error: std's `println!` gives a Result, which every caller here would have to hand on.
pub fn text(s: &[u8]) {
    io::write_all(1, s);
}

pub fn number(n: u64) {
    io::print_decimal(1, n);
}

pub fn refused(why: Refusal) {
    text(b"refused ");
    number(u64::from(u32::from(why)));
}

fn item(index: u64, first: bool, v: i64) {
    if first {
        text(b" [");
        number(index);
        text(b"]");
    }
    if v < 0 {
        text(b" -");
    } else {
        text(b" ");
    }
    number(v.unsigned_abs());
}

// The index of the next field, and whether the one before it was 0.
#[derive(Drop)]
struct Printer {
    index: u64,
    first: bool,
}

impl Visitor for Printer {
    fn one<F: Field>(&mut self, field: &mut F) {
        let v = field.number();
        if v != 0 {
            item(self.index, self.first, v);
        }
        self.first = v == 0;
        self.index = self.index.saturating_add(1);
    }
}

// The fields that are not 0, after the index of the first in a row.
pub fn runs(set: &mut VvcAps) {
    let mut printer = Printer {
        index: 0,
        first: true,
    };
    visit(set, &mut printer);
}

// In capitals, where io's `print_hex` has small letters.
const DIGITS: &[u8; 16] = b"0123456789ABCDEF";

pub fn hexadecimal(s: &[u8]) {
    for &b in s {
        let b = b as usize;
        text(&[DIGITS[b / 16], DIGITS[b % 16]]);
    }
}
