// The sets that a stream leaves in a new table, as lines on standard output.
#![tactic(auto)]

ghost use Rattle.std.specs.Prelude.{◌≡◌};
ghost use Rattle.aps_table.specs.Answers.{stream_answer};
ghost use Rattle.aps_table.specs.Calls.{stream, answer_to};

use aps::LONGEST_RBSP;
use aps::aps::{ApsHead, ApsKind};
use aps_table::places::{Table, new_table};
use aps_table::table::{Counts, lookup_head, take_stream};
use bitstream::Refusal;

// By the toolchain's crate `io`, whose calls answer no error: `print_sets` answers for every stream, where std's `println!` would give it an error of its own.
fn text(s: &[u8]) {
    io::write_all(1, s);
}

fn number(n: u64) {
    io::print_decimal(1, n);
}

fn flag(f: bool) {
    text(if f { b" 1" } else { b" 0" });
}

// Kind, id, chroma flag and extension flag.
fn print_set(head: ApsHead) {
    number(u8::from(head.kind).into());
    text(b" ");
    number(head.aps_adaptation_parameter_set_id.into());
    flag(head.aps_chroma_present_flag);
    flag(head.aps_extension_flag);
    text(b"\n");
}

fn print_kind(table: &Table, kind: ApsKind) {
    for id in 0..=kind.max_id() {
        if let Ok(held) = lookup_head(table, kind.into(), id) {
            print_set(held.set);
        }
    }
}

// A header and each filled place.
pub fn print_table(table: &Table) {
    text(b"kind id chroma ext\n");
    print_kind(table, ApsKind::Alf);
    print_kind(table, ApsKind::Lmcs);
    print_kind(table, ApsKind::Scaling);
}

// A header and each filled place, or `refused` and the number; the stream's answer.
pub fn print_sets(bytes: &[u8]) -> Result<Counts, Refusal>
    ensures { stream_answer result ≡ answer_to (stream bytes.now 2048) }
{
    let mut work = [0u8; LONGEST_RBSP];
    let mut table = new_table();
    let answer = take_stream(&mut table, bytes, &mut work);
    match answer {
        Ok(_) => print_table(&table),
        Err(why) => {
            text(b"refused ");
            number(u32::from(why).into());
            text(b"\n");
        }
    }
    answer
}
