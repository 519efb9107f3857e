// Writes each small set to standard output, a line each; a refusal goes to standard error.
#![tactic(auto)]

use small_sets::lines::write_small_sets;

// By the toolchain's crate `io`, whose calls answer no error: a refusal is all that `main` tells.
fn main() {
    // A fixed buffer with more room than the lines take: no heap is used.
    let mut out = [0u8; 4096];
    match write_small_sets(&mut out) {
        Ok(size) => {
            io::write_all(1, &out[..size.min(out.len())]);
        }
        Err(why) => {
            io::write_all(2, b"refused ");
            io::print_decimal(2, u32::from(why) as u64);
            io::write_all(2, b"\n");
        }
    }
}
