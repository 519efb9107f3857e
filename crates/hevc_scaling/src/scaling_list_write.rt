// scaling_list_data(), H.265 7.3.4, written. Of a list that is not coded nothing is looked at, of a predicted one the delta alone, of any other not the delta.
ghost use Rattle.std.specs.Prelude.{◌≡◌, cond, ◌+◌, ◌*◌, ◌/◌, ◌≤◌, ◌<◌, ltb, pos, length, replicate, take, OnOk};
ghost use Rattle.bitstream.specs.Outcome.{left, outcome_written};
ghost use Rattle.aps.specs.Writes.{writes};
ghost use Rattle.hevc_scaling.specs.Inner.{in_range, list_bits, written};
ghost use Rattle.hevc_scaling.specs.ListData.{looked, look, write_scaling_list_data};
ghost use Rattle.hevc_scaling.specs.ListSyntax.{coef_num, difference, coefficients, dc_at, explicit, list_at, list_syntax};

use crate::list_writer::ListWriter;
use crate::scaling_list::{HevcScalingListData, ListId, ScalingList};
use crate::scaling_list_data::first_coef;
use aps::write::copy_out;
use bitstream::Refusal;

// The residue of v - nextCoef in -128..127.
pub(crate) fn delta_coef(next_coef: u8, v: u8) -> i32
    ensures { result ≡ difference next_coef v }
{
    let up = (u32::from(v) + 256 - u32::from(next_coef)) % 256;
    if up < 128 { up as i32 } else { up as i32 - 256 }
}

// The coefficients of a list after nextCoef.
fn put_coefs(writer: &mut ListWriter, next_coef: u8, coefs: &[u8]) -> Result<(), Refusal>
    requires { writer.old.at + length coefs.now * 17 ≤ 17020 }
    ensures wrote { written result writer.new ≡ writes (coefficients (length coefs.now) next_coef) coefs.now writer.old.buffer writer.old.at }
    ensures within { writer.new.at ≤ writer.old.at + length coefs.now * 17 }
{
    let mut next = next_coef;
    for &coef in coefs {
        writer.se(delta_coef(next, coef))?;
        next = coef;
    }
    Ok(())
}

// scaling_list_dc_coef_minus8, for sizeId 2 and 3; it is 0 for the others.
fn put_dc(writer: &mut ListWriter, id: ListId, dc: i32) -> Result<(), Refusal>
    requires room { writer.old.at + cond (ltb 1 (id.number / 6)) 17 0 ≤ 17020 }
    requires unsent { id.number / 6 < 2 → dc ≡ pos 0 }
    ensures wrote { written result writer.new ≡ writes (dc_at (id.number / 6)) dc writer.old.buffer writer.old.at }
    ensures within { writer.new.at ≤ writer.old.at + cond (ltb 1 (id.number / 6)) 17 0 }
    ensures taken { OnOk result (in_range dc) }
{
    if id.size_id() < 2 {
        return Ok(());
    }
    if dc < -7 || 247 < dc {
        return Err(Refusal::InvalidData);
    }
    writer.se(dc)
}

// The DC and the coefficients of a list that is not predicted.
fn put_explicit(writer: &mut ListWriter, id: ListId, list: &ScalingList) -> Result<(), Refusal>
    requires room { writer.old.at + (cond (ltb 1 (id.number / 6)) 17 0 + coef_num (id.number / 6) * 17) ≤ 17020 }
    requires unsent { id.number / 6 < 2 → list.now.dc_coef_minus8 ≡ pos 0 }
    ensures wrote { written result writer.new ≡ writes (explicit (id.number / 6)) (list.now.dc_coef_minus8, take (coef_num (id.number / 6)) list.now.coefs) writer.old.buffer writer.old.at }
    ensures within { writer.new.at ≤ writer.old.at + (cond (ltb 1 (id.number / 6)) 17 0 + coef_num (id.number / 6) * 17) }
{
    let dc = list.dc_coef_minus8;
    put_dc(writer, id, dc)?;
    let coefs = &list.coefs[..id.coef_num()];
    put_coefs(writer, first_coef(dc), coefs)
}

// One list; of one that is not coded nothing is sent.
fn put_list(writer: &mut ListWriter, id: ListId, list: &ScalingList) -> Result<(), Refusal>
    requires room { writer.old.at + list_bits id.number ≤ 17020 }
    requires unsent { id.number / 6 < 2 → list.now.dc_coef_minus8 ≡ pos 0 }
    ensures wrote { written result writer.new ≡ writes (list_at id.number) (looked id.number list.now) writer.old.buffer writer.old.at }
    ensures within { writer.new.at ≤ writer.old.at + list_bits id.number }
{
    if !id.is_coded() {
        return Ok(());
    }
    writer.flag(list.pred_mode_flag)?;
    if list.pred_mode_flag {
        return put_explicit(writer, id, list);
    }
    writer.ue_to(list.pred_matrix_id_delta, id.max_delta() as u32)
}

// All lists, into a new writer.
fn put_lists(writer: &mut ListWriter, lists: &HevcScalingListData) -> Result<(), Refusal>
    requires { writer.old.at ≡ 0 }
    ensures { written result writer.new ≡ writes list_syntax (look lists.now) writer.old.buffer writer.old.at }
{
    for number in 0..24 {
        let id = ListId { number };
        let list = lists.list(id);
        put_list(writer, id, &list)?;
    }
    Ok(())
}

// scaling_list_data() at the start of the output.
pub fn write_scaling_list_data(
    lists: &HevcScalingListData,
    out: &mut [u8],
) -> Result<usize, Refusal>
    ensures answer { outcome_written result out.new ≡ write_scaling_list_data lists.now out.old }
    ensures bytes { out.new ≡ left out.old (write_scaling_list_data lists.now out.old) }
{
    let mut writer = ListWriter::new();
    put_lists(&mut writer, lists)?;
    copy_out(writer.bytes(), out)
}
