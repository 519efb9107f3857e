// Writes of fields into outputs that hold ones, so that kept bits and zeros show.
ghost use Rattle.std.specs.Prelude.{◌≤◌};

use crate::{print, reads};
use bitstream::{Refusal, bit_writer};

// A field to write.
#[derive(Clone, Copy)]
enum Field {
    // The value and the width.
    Bits(u32, u32),
    Ue(u32),
    Se(i32),
    Trailing,
}

impl Field {
    fn ask(self) {
        match self {
            Field::Bits(v, n) => {
                print::text(b"write_bits ");
                print::number(v as u64);
                print::text(b" width ");
                print::number(n as u64);
            }
            Field::Ue(v) => {
                print::text(b"write_ue ");
                print::number(v as u64);
            }
            Field::Se(v) => {
                print::text(b"write_se ");
                print::signed(v.into());
            }
            Field::Trailing => print::text(b"write_rbsp_trailing_bits"),
        }
    }

    fn write(self, out: &mut [u8], at: usize) -> Result<usize, Refusal> {
        match self {
            Field::Bits(v, n) => bit_writer::write_bits(out, at, v, n),
            Field::Ue(v) => bit_writer::write_ue(out, at, v),
            Field::Se(v) => bit_writer::write_se(out, at, v),
            Field::Trailing => bit_writer::write_rbsp_trailing_bits(out, at),
        }
    }

    fn read(self, bytes: &[u8], at: usize) {
        match self {
            Field::Bits(_, n) => reads::u(bytes, at, n),
            Field::Ue(_) => reads::ue(bytes, at),
            Field::Se(_) => reads::se(bytes, at),
            Field::Trailing => reads::trailing(bytes, at),
        }
    }
}

fn write(out: &mut [u8], at: usize, f: Field) {
    f.ask();
    print::place(at, b" into", out);
    let w = f.write(out, at);
    print::answer(b" bit ", w, out);
}

// Into the first `room` of nine bytes.
fn write_into(room: usize, at: usize, f: Field)
    requires { room ≤ 9 }
{
    let mut out = [0xFFu8; 9];
    write(&mut out[..room], at, f);
}

fn widths(at: usize) {
    write_into(6, at, Field::Bits(0x5A5A5A5A, 0));
    write_into(6, at, Field::Bits(0, 1));
    write_into(6, at, Field::Bits(0x5A5A5A5A, 31));
    write_into(6, at, Field::Bits(0x5A5A5A5A, 32));
    write_into(6, at, Field::Bits(0x5A5A5A5A, 33));
}

fn width_cases() {
    for at in [0, 3, 7, 8] {
        widths(at);
    }
}

// Of a value wider than its width the low bits are written.
fn wide_value_cases() {
    write_into(2, 0, Field::Bits(0xFFFFFFF0, 4));
    write_into(2, 2, Field::Bits(0xFFFFFFF8, 4));
    write_into(2, 6, Field::Bits(2, 1));
    write_into(3, 7, Field::Bits(0x1234, 8));
}

fn start_cases() {
    write_into(1, 1048576, Field::Bits(1, 0));
    write_into(1, 1048576, Field::Bits(1, 1));
    write_into(1, 1048577, Field::Bits(1, 0));
    write_into(1, 1048577, Field::Bits(1, 1));
    write_into(1, 1048577, Field::Bits(1, 33));
    write_into(1, 1048576, Field::Ue(0));
    write_into(1, 1048577, Field::Ue(0));
    write_into(1, 1048576, Field::Se(0));
    write_into(1, 1048577, Field::Se(0));
    write_into(1, 1048576, Field::Trailing);
    write_into(1, 1048577, Field::Trailing);
}

// At the largest start, into the first `room` bytes of an output that reaches behind it. A call of its own, so that one such output at a time is on the stack.
#[inline(never)]
fn far_into(room: usize, f: Field)
    requires { room ≤ 131076 }
{
    let mut out = [0u8; 131076];
    write(&mut out[..room], 1048576, f);
}

fn far_cases() {
    far_into(131076, Field::Bits(0xFFFFFFFF, 32));
    far_into(131076, Field::Bits(1, 33));
    far_into(131073, Field::Trailing);
}

// Just enough room, then one byte less.
fn room_cases() {
    write_into(2, 4, Field::Bits(0xABC, 12));
    write_into(1, 4, Field::Bits(0xABC, 12));
    write_into(0, 0, Field::Bits(0, 1));
    write_into(0, 0, Field::Bits(0, 0));
    write_into(8, 1, Field::Ue(4294967294));
    write_into(7, 1, Field::Ue(4294967294));
    write_into(8, 1, Field::Se(-2147483647));
    write_into(7, 1, Field::Se(-2147483647));
    write_into(2, 8, Field::Trailing);
    write_into(1, 8, Field::Trailing);
    write_into(0, 0, Field::Trailing);
}

// Too short and unwritable at once: 2 comes before 5.
fn order_cases() {
    write_into(0, 0, Field::Bits(0, 33));
    write_into(0, 0, Field::Ue(4294967295));
    write_into(0, 0, Field::Se(-2147483648));
    write_into(0, 1048577, Field::Trailing);
}

// Written, then read.
fn and_back(at: usize, f: Field) {
    let mut out = [0xFFu8; 9];
    write(&mut out, at, f);
    f.read(&out, at);
}

fn ue_values(at: usize) {
    for v in [0, 1, 2, 2147483646, 2147483647, 4294967294] {
        and_back(at, Field::Ue(v));
    }
}

fn se_values(at: usize) {
    for v in [0, 1, -1, 2, -2, 2147483647, -2147483647] {
        and_back(at, Field::Se(v));
    }
}

fn value_cases() {
    ue_values(0);
    ue_values(5);
    se_values(0);
    se_values(5);
    write_into(9, 0, Field::Ue(4294967295));
    write_into(9, 0, Field::Se(-2147483648));
}

fn trailing_cases() {
    for at in 0..8 {
        write_into(2, at, Field::Trailing);
    }
}

pub fn run() {
    width_cases();
    wide_value_cases();
    start_cases();
    far_cases();
    room_cases();
    order_cases();
    value_cases();
    trailing_cases();
}
