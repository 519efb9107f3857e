// Runs the bit fields and the escapes at their boundaries. A line says what was asked and, after the arrow, the answer.
#![tactic(auto)]

mod escapes;
mod print;
mod reads;
mod writes;

fn main() {
    reads::run();
    writes::run();
    escapes::run();
}
