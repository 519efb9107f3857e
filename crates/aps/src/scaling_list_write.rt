// scaling_list_data(), H.266 7.3.2.20, written. Uncoded ids, what is copied and entries past the matrix are not looked at.
ghost use Rattle.std.specs.Prelude.{◌≡◌, true, cond, ◌+◌, ◌-◌, ◌*◌, ◌≤◌, ◌<◌, ltb, pos, length, get_or, take, drop};
ghost use Rattle.aps.specs.ScalingSyntax.{entries, step_at, sums, dc_at, delta_at, coefficients, entry_syntax, id_at, scaling_syntax, looked, looked_at, look};
ghost use Rattle.aps.specs.Writes.{Wrote};

use crate::inferred::unsent;
use crate::scaling_list::{ListId, VvcScalingListData};
use crate::writer::Writer;
use bitstream::Refusal;

// The sum v at position i, after prev: its difference, or nothing where it is repeated.
fn put_sum(writer: &mut Writer, id: ListId, i: usize, prev: i32, v: i32) -> Result<(), Refusal>
    requires { (writer.old.at ≤ 32600) × (i < 64) }
    ensures wrote { Wrote (step_at id.number i prev) v writer.old writer.new result }
    ensures within { writer.new.at ≤ writer.old.at + 17 }
{
    if id.step_skipped(i) {
        return unsent(v == prev);
    }
    let step = v.checked_sub(prev).ok_or(Refusal::InvalidData)?;
    writer.se8(step)
}

// The sums of id after its DC.
fn put_sums(writer: &mut Writer, id: ListId, dc: i32, row: &[i32]) -> Result<(), Refusal>
    requires { (writer.old.at ≤ 31200) × (length row.now ≡ entries id.number) }
    ensures wrote { Wrote (sums id.number 0 (entries id.number) dc) row.now writer.old writer.new result }
    ensures within { writer.new.at ≤ writer.old.at + 1088 }
{
    let mut prev = dc;
    for (i, &v) in row.iter().enumerate() {
        put_sum(writer, id, i, prev, v)?;
        prev = v;
    }
    Ok(())
}

// The DC, above id 13, and the sums of an id that is not copied.
fn put_coefficients(
    writer: &mut Writer,
    id: ListId,
    lists: &VvcScalingListData,
) -> Result<(), Refusal>
    requires { writer.old.at ≤ 31100 }
    ensures wrote { Wrote (coefficients id.number)
        (cond (ltb 13 id.number) (get_or lists.now.dc_coef (id.number - 14) (pos 0)) (pos 0), take (entries id.number) (take 64 (drop (id.number * 64) lists.now.scaling_list)))
        writer.old writer.new result }
    ensures within { writer.new.at ≤ writer.old.at + 1105 }
{
    let start = 64 * id.number;
    let row = &lists.scaling_list[start..start + id.matrix_entries()];
    if id.number < 14 {
        return put_sums(writer, id, 0, row);
    }
    let dc = lists.dc_coef[id.number - 14];
    writer.se8(dc)?;
    put_sums(writer, id, dc, row)
}

// scaling_list_pred_id_delta; it is 0 where it is not sent.
fn put_id_delta(writer: &mut Writer, id: ListId, used: bool, delta: u32) -> Result<(), Refusal>
    requires { writer.old.at ≤ 32700 }
    ensures wrote { Wrote (delta_at id.number used) delta writer.old writer.new result }
    ensures within { writer.new.at ≤ writer.old.at + 9 }
{
    if id.delta_sent(used) {
        return writer.ue_to(delta, id.max_id_delta() as u32);
    }
    unsent(delta == 0)
}

// One coded id.
fn put_coded(writer: &mut Writer, id: ListId, lists: &VvcScalingListData) -> Result<(), Refusal>
    requires { writer.old.at ≤ 31000 }
    ensures wrote { Wrote (entry_syntax id.number) (looked_at true lists.now id.number) writer.old writer.new result }
    ensures within { writer.new.at ≤ writer.old.at + 1116 }
{
    let copy = lists.copy_mode_flag[id.number];
    let pred = lists.pred_mode_flag[id.number];
    let delta = lists.pred_id_delta[id.number];
    writer.flag(copy)?;
    if copy {
        unsent(!pred)?;
        return put_id_delta(writer, id, true, delta);
    }
    writer.flag(pred)?;
    put_id_delta(writer, id, pred, delta)?;
    put_coefficients(writer, id, lists)
}

// scaling_list_data(). Of an uncoded id nothing is sent.
pub(crate) fn write_scaling_list_data(
    writer: &mut Writer,
    chroma: bool,
    lists: &VvcScalingListData,
) -> Result<(), Refusal>
    requires { writer.old.at ≤ 100 }
    ensures wrote { Wrote (scaling_syntax chroma) (look chroma lists.now) writer.old writer.new result }
    ensures within { writer.new.at ≤ writer.old.at + 31248 }
{
    for number in 0..28 {
        let id = ListId { number };
        if id.scaling_id_coded(chroma) {
            put_coded(writer, id, lists)?;
        }
    }
    Ok(())
}
