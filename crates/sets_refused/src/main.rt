// The program `sets` on a stream that is refused: a byte stands between two units. A program has one stored input.
#![tactic(auto)]

fn main() {
    // A fixed buffer and how much was read: no heap is used.
    // One byte more than the longest stream, so that a longer one is seen to be longer.
    let mut input = [0u8; 65537];
    let n = io::read_full(0, &mut input);
    // A refusal is printed already.
    let _ = sets_text::print_sets(&input[..n]);
}
