// Reads a stream from standard input and writes the list at a cut after it to standard output; a refusal goes to standard error.
#![tactic(auto)]

use aps::LONGEST_RBSP;
use aps_table::list::{LIST_BYTES, write_list};
use aps_table::places::new_table;
use aps_table::table::take_stream;
use bitstream::Refusal;

// By the toolchain's crate `io`, whose calls answer no error: a refusal is all that `main` tells.
// sets_text writes the same to standard output: a crate for both would be longer.
fn refused(why: Refusal) {
    io::write_all(2, b"refused ");
    io::print_decimal(2, u32::from(why) as u64);
    io::write_all(2, b"\n");
}

// The list at a cut after the stream, at the start of `out`, and its length: no heap is used.
fn list_after(stream: &[u8], out: &mut [u8]) -> Result<usize, Refusal> {
    let mut work = [0u8; LONGEST_RBSP];
    let mut table = new_table();
    take_stream(&mut table, stream, &mut work)?;
    write_list(&table, out)
}

fn main() {
    // A fixed buffer and how much was read: no heap is used.
    // One byte more than the longest stream, so that a longer one is seen to be longer.
    let mut input = [0u8; 65537];
    let n = io::read_full(0, &mut input);
    let mut out = [0u8; LIST_BYTES];
    match list_after(&input[..n], &mut out) {
        Ok(size) => {
            io::write_all(1, &out[..size.min(out.len())]);
        }
        Err(why) => refused(why),
    }
}
