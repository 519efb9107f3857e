// Marks of a table to come back to, in memory that the caller lends beside it.
ghost use Rattle.std.specs.Prelude.{◌≡◌, false, ◌≤◌, ◌<◌, leb, IfSome, IfNone};
ghost use Rattle.aps_table.specs.Marks.{mark_at, new_marks, set_mark, go_back, given, is_done, done_answer};

use crate::places::{TABLE_BYTES, Table, put_over};
use bitstream::Refusal;

// How many marks there are.
pub const MARKS: usize = 8;

// Whether a mark was set, and the table's bytes.
const MARK_BYTES: usize = 1 + TABLE_BYTES;

pub const MARKS_BYTES: usize = MARKS * MARK_BYTES;

pub type Marks = [u8; MARKS_BYTES];

// No mark is set, whatever the bytes were. Lent and not given by value, which would be copied.
pub fn new_marks(marks: &mut Marks)
    ensures { marks.new ≡ new_marks }
{
    marks.fill(0);
}

// Where a mark begins; none: there is no such mark.
fn place_of(mark: u8) -> Option<usize>
    ensures some { IfSome result (λ at. (at ≡ mark_at mark) × (mark ≤ 7)) }
    ensures none { IfNone result (leb mark 7 ≡ false) }
{
    let mark = mark as usize;
    if mark < MARKS {
        return Some(mark * MARK_BYTES);
    }
    None
}

// All places of the table kept in a mark, in the place of what it kept before. 2: there is no such mark.
pub fn set_mark(table: &Table, marks: &mut Marks, mark: u8) -> Result<(), Refusal>
    ensures answer { done_answer result ≡ is_done (set_mark mark table.now marks.old) }
    ensures marks { marks.new ≡ given (set_mark mark table.now marks.old) marks.old }
{
    let at = place_of(mark).ok_or(Refusal::InvalidData)?;
    marks[at] = 1;
    put_over(marks, at + 1, table);
    Ok(())
}

// All places of the table as they were when the mark was set; the marks stay. 2; 14: it never was.
pub fn go_back(table: &mut Table, marks: &Marks, mark: u8) -> Result<(), Refusal>
    ensures answer { done_answer result ≡ is_done (go_back mark marks.now) }
    ensures table { table.new ≡ given (go_back mark marks.now) table.old }
{
    let at = place_of(mark).ok_or(Refusal::InvalidData)?;
    if marks[at] == 0 {
        return Err(Refusal::MarkNotSet);
    }
    put_over(table, 0, &marks[at + 1..at + MARK_BYTES]);
    Ok(())
}
