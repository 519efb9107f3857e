// Reads of fields, and of what was written.
use crate::print;
use bitstream::Refusal;
use bitstream::bit_reader::{BitReader, Field};

fn field<T: Into<i64>>(read: Result<Field<T>, Refusal>) {
    match read {
        Ok(field) => {
            print::text(b" ");
            print::signed(field.value.into());
            after(field.next, field.lacking);
        }
        Err(why) => print::refused(why),
    }
    print::end_line();
}

fn after(next: BitReader, lacking: bool) {
    print::text(b",");
    print::bit(next.bit_pos);
    print::lacking(lacking);
}

fn aligned(read: Result<BitReader, Refusal>) {
    match read {
        Ok(next) => print::bit(next.bit_pos),
        Err(why) => print::refused(why),
    }
    print::end_line();
}

pub fn u(bytes: &[u8], at: usize, n: u32) {
    print::text(b"u ");
    print::number(n as u64);
    print::place(at, b" of", bytes);
    field((BitReader { bit_pos: at }).u(bytes, n));
}

pub fn ue(bytes: &[u8], at: usize) {
    print::text(b"ue");
    print::place(at, b" of", bytes);
    field((BitReader { bit_pos: at }).ue(bytes));
}

pub fn se(bytes: &[u8], at: usize) {
    print::text(b"se");
    print::place(at, b" of", bytes);
    field((BitReader { bit_pos: at }).se(bytes));
}

pub fn trailing(bytes: &[u8], at: usize) {
    print::text(b"read_rbsp_trailing_bits");
    print::place(at, b" of", bytes);
    aligned((BitReader { bit_pos: at }).read_rbsp_trailing_bits(bytes));
}

fn widths(bytes: &[u8], at: usize) {
    for n in [0, 1, 31, 32, 33] {
        u(bytes, at, n);
    }
}

fn each_kind(bytes: &[u8], at: usize) {
    u(bytes, at, 8);
    ue(bytes, at);
    se(bytes, at);
    trailing(bytes, at);
}

fn width_cases() {
    let ones = [0xFFu8; 5];
    widths(&ones, 0);
    widths(&ones, 1);
    let mixed = [0xA5u8, 0x0F, 0x3C, 0x96, 0xE1];
    widths(&mixed, 0);
    widths(&mixed, 7);
}

fn start_cases() {
    let one = [0xFFu8];
    widths(&one, 1048576);
    widths(&one, 1048577);
    each_kind(&one, 1048576);
    each_kind(&one, 1048577);
}

fn empty_cases() {
    each_kind(b"", 0);
    each_kind(b"", 1);
}

// A call of its own, as the next, so that one long input at a time is on the stack.
#[inline(never)]
fn longest_cases() {
    let longest = [0xFFu8; 65536];
    for at in [0, 524280, 524287, 524288] {
        each_kind(&longest, at);
    }
}

#[inline(never)]
fn too_long_cases() {
    let too_long = [0xFFu8; 65537];
    each_kind(&too_long, 0);
    each_kind(&too_long, 1048577);
    widths(&too_long, 1048577);
}

// Fields across the input's end, and past it.
fn end_cases() {
    let two = [0xABu8, 0xCD];
    u(&two, 4, 16);
    u(&two, 8, 32);
    u(&two, 15, 2);
    u(&two, 16, 8);
    u(&two, 40, 32);
}

fn zeros_inside_cases() {
    let thirty_one = [0u8, 0, 0, 1, 0xFF, 0xFF, 0xFF, 0xFF];
    ue(&thirty_one, 0);
    ue(&thirty_one, 1);
    se(&thirty_one, 0);
    let thirty_two = [0u8, 0, 0, 0, 0xFF, 0xFF, 0xFF, 0xFF];
    ue(&thirty_two, 0);
    ue(&thirty_two, 1);
    se(&thirty_two, 0);
    let thirty_nine = [0x80u8, 0, 0, 0, 0, 0xFF];
    ue(&thirty_nine, 0);
    ue(&thirty_nine, 1);
}

// 32 zeros to the end, then 31, and so on to none.
fn zeros_to_the_end(zeros: &[u8]) {
    for at in 0..34 {
        ue(zeros, at);
        se(zeros, at);
    }
}

fn zero_bytes_cases() {
    zeros_to_the_end(&[0; 4]);
    ue(&[0], 0);
    ue(&[0; 2], 0);
    ue(&[0; 3], 0);
    ue(&[0; 5], 0);
}

// The suffix of a ue past the input's end.
fn suffix_cases() {
    ue(&[1], 0);
    se(&[1], 0);
    ue(&[5], 0);
    se(&[5], 0);
    ue(&[0, 0, 0, 1], 0);
    se(&[0, 0, 0, 1], 0);
}

// The largest and the least se.
fn signed_end_cases() {
    se(&[0, 0, 0, 1, 0xFF, 0xFF, 0xFF, 0xFC], 0);
    se(&[0, 0, 0, 1, 0xFF, 0xFF, 0xFF, 0xFE], 0);
}

// A 1 bit behind as many ones as the place says, and zeros.
fn stop_bit_cases() {
    for (at, b) in [0x80, 0xC0, 0xE0, 0xF0, 0xF8, 0xFC, 0xFE, 0xFF]
        .into_iter()
        .enumerate()
    {
        trailing(&[b], at);
    }
}

fn no_stop_bit_cases() {
    let zero = [0x7Fu8, 0xFF];
    trailing(&zero, 0);
    let padding = [0x81u8, 0xFF];
    trailing(&padding, 0);
    trailing(&padding, 6);
    trailing(&padding, 7);
    trailing(&padding, 15);
    trailing(&padding, 16);
    let good = [0x80u8, 0xFF];
    trailing(&good, 0);
}

pub fn run() {
    width_cases();
    start_cases();
    empty_cases();
    longest_cases();
    too_long_cases();
    end_cases();
    zeros_inside_cases();
    zero_bytes_cases();
    suffix_cases();
    signed_end_cases();
    stop_bit_cases();
    no_stop_bit_cases();
}
