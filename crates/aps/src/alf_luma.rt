// The luma filters of alf_data().
ghost use Rattle.std.specs.Prelude.{◌≡◌, true, false, ◌≤◌, replicate};
ghost use Rattle.aps.specs.AlfSyntax.{luma, luma_indexes, no_luma, to_luma};
ghost use Rattle.aps.specs.Reads.{Reads, filled};

use crate::alf::VvcAlfLuma;
use crate::alf_fields::{ceil_log2, clips_sent, read_clips, read_coefficients};
use crate::reader::Reader;
use bitstream::Refusal;

// The 25 indexes, each at most count - 1, if there is more than one filter.
fn read_indexes(
    reader: &mut Reader,
    count_minus1: u32,
    indexes: &mut [u8; 25],
) -> Result<(), Refusal>
    requires { (count_minus1 ≤ 24) × (indexes.old ≡ replicate 25 0) }
    ensures { Reads (luma_indexes count_minus1) (filled result indexes.new reader.new.at) reader.old reader.new }
{
    if count_minus1 == 0 {
        return Ok(());
    }
    let bits = ceil_log2(count_minus1 + 1);
    let mut held = *reader;
    for index in indexes.iter_mut() {
        let x = held.u(bits, 5)?;
        if count_minus1 < x {
            return Err(Refusal::InvalidData);
        }
        *index = x as u8;
    }
    *reader = held;
    Ok(())
}

// The luma filters, if they are signalled.
pub(crate) fn read_luma(
    reader: &mut Reader,
    signal: bool,
    filters: &mut VvcAlfLuma,
) -> Result<(), Refusal>
    requires { (filters.old ≡ to_luma no_luma.default) }
    ensures { Reads (luma signal) (filled result filters.new reader.new.at) reader.old reader.new }
{
    if !signal {
        return Ok(());
    }
    let clip = reader.flag()?;
    let count_minus1 = reader.ue_to(24)?;
    let n = 12 * (count_minus1 as usize + 1);
    filters.alf_luma_clip_flag = clip;
    filters.alf_luma_num_filters_signalled_minus1 = count_minus1;
    read_indexes(reader, count_minus1, &mut filters.alf_luma_coeff_delta_idx)?;
    read_coefficients(reader, n, &mut filters.coeff_abs, &mut filters.coeff_sign)?;
    let rows = clips_sent(clip, 2 * (count_minus1 as usize + 1));
    read_clips(reader, rows, &mut filters.clip_idx)?;
    Ok(())
}
