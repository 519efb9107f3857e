// The calls of marks, which are 185,832 bytes that the caller keeps beside the table.
ghost use Rattle.std.specs.Prelude.{◌≡◌, ℕ, List, Result};
ghost use Rattle.aps_table.specs.Marks.{new_marks, set_mark, go_back, given, is_done, done_answer};
ghost use Rattle.aps_table.specs.Calls.{answer_of};
ghost use Rattle.kendwyra.specs.Codes.{answer_code};

use aps_table::marks::{Marks, go_back, new_marks, set_mark};
use aps_table::places::Table;
use bitstream::Refusal;

// No mark is set, whatever the bytes were.
#[unsafe(no_mangle)]
pub extern "C" fn aps_marks_new(marks: &mut Marks)
    ensures { marks.new ≡ new_marks }
{
    new_marks(marks);
}

// 0, or the refusal's number.
#[tactic(auto, unfolding(crate::specs::Codes::answer_code))]
fn code_of(answer: Result<(), Refusal>) -> u32
    ensures { (o : Result (List ℕ) ℕ) → done_answer answer ≡ is_done o → result ≡ answer_code (answer_of o) }
{
    match answer {
        Ok(()) => 0,
        Err(why) => why.into(),
    }
}

// All places of the table kept in a mark: 0, or 2: there is no such mark.
#[unsafe(no_mangle)]
pub extern "C" fn aps_set_mark(table: &Table, marks: &mut Marks, mark: u8) -> u32
    ensures code { result ≡ answer_code (answer_of (set_mark mark table.now marks.old)) }
    ensures marks { marks.new ≡ given (set_mark mark table.now marks.old) marks.old }
{
    code_of(set_mark(table, marks, mark))
}

// All places of the table as they were when the mark was set: 0; 2; 14: it never was.
#[unsafe(no_mangle)]
pub extern "C" fn aps_go_back(table: &mut Table, marks: &Marks, mark: u8) -> u32
    ensures code { result ≡ answer_code (answer_of (go_back mark marks.now)) }
    ensures table { table.new ≡ given (go_back mark marks.now) table.old }
{
    code_of(go_back(table, marks, mark))
}
