// scaling_list_data(), H.266 7.3.2.20, read.
ghost use Rattle.std.specs.Prelude.{◌≡◌, cond, ◌-◌, ◌≤◌, ◌<◌, ltb, pos, nat_abs, length, set};
ghost use Rattle.aps.specs.ApsSyntax.{zero_scaling};
ghost use Rattle.aps.specs.Reads.{given, filled, Reads};
ghost use Rattle.aps.specs.ScalingStore.{blank, stored_in, id_in, kept};
ghost use Rattle.aps.specs.ScalingSyntax.{entries, step_at, sums, dc_at, delta_at};

use crate::reader::Reader;
use crate::scaling_list::{ListId, VvcScalingListData};
use bitstream::Refusal;

// The sum at position i, after prev.
#[inline(always)]
fn read_step(reader: &mut Reader, id: ListId, i: usize, prev: i32) -> Result<i32, Refusal>
    requires { (i < 64) × (nat_abs prev ≤ 9000) }
    ensures { Reads (step_at id.number i prev) (given result reader.new.at) reader.old reader.new }
{
    if id.step_skipped(i) {
        return Ok(prev);
    }
    let delta = reader.se8()?;
    Ok(delta + prev)
}

// The sums of id after its DC.
fn read_sums(reader: &mut Reader, id: ListId, dc: i32, list: &mut [i32]) -> Result<(), Refusal>
    requires { (length list.old ≡ entries id.number) × (nat_abs dc ≤ 128) }
    ensures { Reads (sums id.number 0 (entries id.number) dc) (filled result list.new reader.new.at) reader.old reader.new }
{
    let mut held = *reader;
    let mut sum = dc;
    for (i, entry) in list.iter_mut().enumerate() {
        sum = read_step(&mut held, id, i, sum)?;
        *entry = sum;
    }
    *reader = held;
    Ok(())
}

// scaling_list_dc_coef, above id 13.
fn read_dc(reader: &mut Reader, id: ListId) -> Result<i32, Refusal>
    ensures { Reads (dc_at id.number) (given result reader.new.at) reader.old reader.new }
{
    if id.number <= 13 {
        return Ok(0);
    }
    reader.se8()
}

// The DC of an id above 13.
fn store_dc(dc: &mut [i32; 14], id: ListId, value: i32)
    ensures { dc.new ≡ cond (ltb 13 id.number) (set dc.old (id.number - 14) value) dc.old }
{
    if 13 < id.number {
        dc[id.number - 14] = value;
    }
}

// scaling_list_pred_id_delta.
fn read_delta(reader: &mut Reader, id: ListId, used: bool) -> Result<u32, Refusal>
    ensures { Reads (delta_at id.number used) (given result reader.new.at) reader.old reader.new }
{
    if !id.delta_sent(used) {
        return Ok(0);
    }
    reader.ue_to(id.max_id_delta() as u32)
}

// One id, of which nothing is stored yet; an uncoded one is a copy.
fn read_id(
    reader: &mut Reader,
    chroma: bool,
    id: ListId,
    d: &mut VvcScalingListData,
) -> Result<(), Refusal>
    requires { stored_in d.old id.number blank ≡ d.old }
    ensures { Reads (id_in d.old chroma id.number) (filled result d.new reader.new.at) reader.old reader.new }
{
    if !id.scaling_id_coded(chroma) {
        d.copy_mode_flag[id.number] = true;
        return Ok(());
    }
    let copy = reader.flag()?;
    if copy {
        let delta = read_delta(reader, id, true)?;
        d.copy_mode_flag[id.number] = true;
        d.pred_id_delta[id.number] = delta;
        return Ok(());
    }
    let pred = reader.flag()?;
    let delta = read_delta(reader, id, pred)?;
    let dc = read_dc(reader, id)?;
    let first = 64 * id.number;
    let end = first + id.matrix_entries();
    read_sums(reader, id, dc, &mut d.scaling_list[first..end])?;
    d.pred_mode_flag[id.number] = pred;
    d.pred_id_delta[id.number] = delta;
    store_dc(&mut d.dc_coef, id, dc);
    Ok(())
}

// scaling_list_data(), of which the chroma flag is a parameter, into a record of zeros.
pub(crate) fn parse_scaling_list_data(
    reader: &mut Reader,
    chroma: bool,
    d: &mut VvcScalingListData,
) -> Result<(), Refusal>
    requires { d.old ≡ zero_scaling }
    ensures { Reads (kept chroma) (filled result d.new reader.new.at) reader.old reader.new }
{
    for number in 0..28 {
        let id = ListId { number };
        read_id(reader, chroma, id, d)?;
    }
    Ok(())
}
