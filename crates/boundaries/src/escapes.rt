// Escapes put in and removed.
ghost use Rattle.std.specs.Prelude.{◌≤◌};

use crate::print;
use bitstream::{Refusal, nal};

// What was written, and nothing of the rest.
// Not by `print::answer`, which has the colon behind a refusal too.
fn written(r: Result<usize, Refusal>, out: &[u8]) {
    match r {
        Ok(n) => {
            print::text(b" ");
            print::number(n as u64);
            print::text(b":");
            print::first(out, n);
        }
        Err(e) => print::refused(e),
    }
    print::end_line();
}

// Into an output with room.
fn roomy<F: Fn(&[u8], &mut [u8]) -> Result<usize, Refusal>>(name: &[u8], call: F, src: &[u8])
    requires { F.IsAlwaysCallable call }
{
    let mut out = [0xFFu8; 16];
    print::text(name);
    print::bytes(src);
    print::text(b" ->");
    let r = call(src, &mut out);
    written(r, &out);
}

fn both(src: &[u8]) {
    roomy(b"escape", nal::rbsp_to_ebsp, src);
    roomy(b"unescape", nal::ebsp_to_rbsp, src);
}

// Every triple of the bytes 00 to 04.
fn triples() {
    for a in 0..5u8 {
        for b in 0..5u8 {
            for c in 0..5u8 {
                both(&[a, b, c]);
            }
        }
    }
}

fn ending_cases() {
    both(b"");
    both(b"\x00");
    both(b"\x00\x00");
    both(b"\x05\x00\x00");
    both(b"\x00\x00\x00\x00");
    both(b"\x00\x00\x00\x00\x00\x00");
    both(b"\x05\x00\x00\x03");
    both(b"\x00\x00\x03\x03");
    both(b"\x00\x00\x03\x04");
    both(b"\x00\x00\x03\x00\x00\x03");
    both(b"\x00\x00\x00\x03");
    both(b"\x00\x00\x03\x00\x03");
    both(b"\x00\x00\x04\x00\x00\xFF");
}

// Into the first `room` of as many bytes as the longest input of zeros can need, and more.
fn into_room<F: Fn(&[u8], &mut [u8]) -> Result<usize, Refusal>>(
    name: &[u8],
    call: F,
    src: &[u8],
    room: usize,
)
    requires callable { F.IsAlwaysCallable call }
    requires room { room ≤ 98306 }
{
    let mut most = [0xFFu8; 98306];
    let out = &mut most[..room];
    print::text(name);
    print::bytes(src);
    print::text(b" into");
    print::bytes(out);
    print::text(b" ->");
    let r = call(src, out);
    print::answer(b" ", r, out);
}

// Just enough room, one byte less, and more.
fn room_cases() {
    into_room(b"escape", nal::rbsp_to_ebsp, b"\x00\x00\x01", 4);
    into_room(b"escape", nal::rbsp_to_ebsp, b"\x00\x00\x01", 3);
    into_room(b"escape", nal::rbsp_to_ebsp, b"\x00\x00\x01", 8);
    into_room(b"escape", nal::rbsp_to_ebsp, b"\x05\x00\x00", 4);
    into_room(b"escape", nal::rbsp_to_ebsp, b"\x05\x00\x00", 3);
    into_room(b"escape", nal::rbsp_to_ebsp, b"\x00\x00\x00\x00\x00", 7);
    into_room(b"escape", nal::rbsp_to_ebsp, b"\x00\x00\x00\x00\x00", 6);
    into_room(b"escape", nal::rbsp_to_ebsp, b"", 0);
    into_room(b"escape", nal::rbsp_to_ebsp, b"\x07", 0);
}

fn unescape_room_cases() {
    into_room(b"unescape", nal::ebsp_to_rbsp, b"\x00\x00\x03\x01", 3);
    into_room(b"unescape", nal::ebsp_to_rbsp, b"\x00\x00\x03\x01", 2);
    into_room(b"unescape", nal::ebsp_to_rbsp, b"\x00\x00\x03\x01", 8);
    into_room(b"unescape", nal::ebsp_to_rbsp, b"\x00\x00\x03", 2);
    into_room(b"unescape", nal::ebsp_to_rbsp, b"\x00\x00\x03", 1);
    into_room(b"unescape", nal::ebsp_to_rbsp, b"\x00\x00\x04", 3);
    into_room(b"unescape", nal::ebsp_to_rbsp, b"\x00\x00\x04", 2);
    into_room(b"unescape", nal::ebsp_to_rbsp, b"", 0);
    into_room(b"unescape", nal::ebsp_to_rbsp, b"\x07", 0);
}

// The longest input. A call of its own, as the next, so that one input at a time is on the stack.
#[inline(never)]
fn longest_cases() {
    let longest = [0u8; 65536];
    into_room(b"escape", nal::rbsp_to_ebsp, &longest, 98304);
    into_room(b"escape", nal::rbsp_to_ebsp, &longest, 98303);
    into_room(b"unescape", nal::ebsp_to_rbsp, &longest, 65536);
    into_room(b"unescape", nal::ebsp_to_rbsp, &longest, 65535);
}

// One byte more.
#[inline(never)]
fn too_long_cases() {
    let too_long = [0u8; 65537];
    into_room(b"escape", nal::rbsp_to_ebsp, &too_long, 98306);
    into_room(b"unescape", nal::ebsp_to_rbsp, &too_long, 98306);
    into_room(b"escape", nal::rbsp_to_ebsp, &too_long, 0);
    into_room(b"unescape", nal::ebsp_to_rbsp, &too_long, 0);
}

pub fn run() {
    triples();
    ending_cases();
    room_cases();
    unescape_room_cases();
    longest_cases();
    too_long_cases();
}
