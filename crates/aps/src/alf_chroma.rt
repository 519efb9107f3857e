// The chroma and cross-component filters of alf_data().
ghost use Rattle.std.specs.Prelude.{◌≡◌, true, false, ◌≤◌, length, replicate};
ghost use Rattle.aps.specs.Elements.{zipped};
ghost use Rattle.aps.specs.AlfSyntax.{chroma, no_chroma, to_chroma, alternative, alternatives, chroma_arrays};
ghost use Rattle.aps.specs.AlfSyntax.{cc, no_cc, to_cc, cc_coefficients};
ghost use Rattle.aps.specs.Reads.{Reads, filled};

use crate::alf::{VvcAlfCcFilters, VvcAlfChroma};
use crate::alf_fields::{clips_sent, read_clips, read_coefficients};
use crate::reader::Reader;
use bitstream::Refusal;

// One alternative, a row of the record's three flat arrays: its coefficients, and at once its clips. Those that are sent are read alike, whichever it is and however many there are. Rows beside one another: a struct of three slices would be made for each row and taken apart in it.
fn read_alternative(
    reader: &mut Reader,
    clip: bool,
    abs: &mut [u32],
    sign: &mut [bool],
    clips: &mut [u8],
) -> Result<(), Refusal>
    requires { (abs.old ≡ replicate 6 0) × (sign.old ≡ replicate 6 false) × (clips.old ≡ replicate 6 0) }
    ensures { Reads (alternative clip 0 0) (filled result (zipped abs.new sign.new, clips.new) reader.new.at) reader.old reader.new }
{
    read_coefficients(reader, 6, abs, sign)?;
    read_clips(reader, clips_sent(clip, 1), clips)?;
    Ok(())
}

// The alternatives that the record announces, one after another: each is a row of its arrays. Cut by index: as chunks, a proof would not know what was written, as in `read_clips`.
fn read_alternatives(reader: &mut Reader, filters: &mut VvcAlfChroma) -> Result<(), Refusal>
    requires { (filters.old.alf_chroma_num_alt_filters_minus1 ≤ 7) × (filters.old.coeff_abs ≡ replicate 48 0) × (filters.old.coeff_sign ≡ replicate 48 false) × (filters.old.clip_idx ≡ replicate 48 0) }
    ensures field { Reads (alternatives filters.old.alf_chroma_clip_flag filters.old.alf_chroma_num_alt_filters_minus1)
        (filled result (zipped filters.new.coeff_abs filters.new.coeff_sign, filters.new.clip_idx) reader.new.at) reader.old reader.new }
    ensures others { (filters.new.alf_chroma_clip_flag ≡ filters.old.alf_chroma_clip_flag)
        × (filters.new.alf_chroma_num_alt_filters_minus1 ≡ filters.old.alf_chroma_num_alt_filters_minus1) }
    ensures sizes { (length filters.new.coeff_abs ≡ 48) × (length filters.new.coeff_sign ≡ 48) }
{
    let clip = filters.alf_chroma_clip_flag;
    for row in 0..filters.alf_chroma_num_alt_filters_minus1 as usize + 1 {
        let i = 6 * row;
        read_alternative(
            reader,
            clip,
            &mut filters.coeff_abs[i..i + 6],
            &mut filters.coeff_sign[i..i + 6],
            &mut filters.clip_idx[i..i + 6],
        )?;
    }
    Ok(())
}

// The chroma filters, if they are signalled.
pub(crate) fn read_chroma(
    reader: &mut Reader,
    signal: bool,
    filters: &mut VvcAlfChroma,
) -> Result<(), Refusal>
    requires { (filters.old ≡ to_chroma no_chroma.default) }
    ensures { Reads (chroma signal) (filled result filters.new reader.new.at) reader.old reader.new }
{
    if !signal {
        return Ok(());
    }
    let clip = reader.flag()?;
    let count_minus1 = reader.ue_to(7)?;
    filters.alf_chroma_clip_flag = clip;
    filters.alf_chroma_num_alt_filters_minus1 = count_minus1;
    read_alternatives(reader, filters)?;
    Ok(())
}

// The coefficients of Cb or Cr that the record announces.
fn read_cc_coefficients(reader: &mut Reader, filters: &mut VvcAlfCcFilters) -> Result<(), Refusal>
    requires { (filters.old.filters_signalled_minus1 ≤ 3) × (filters.old.mapped_coeff_abs ≡ replicate 28 0) × (filters.old.coeff_sign ≡ replicate 28 false) }
    ensures field { Reads (cc_coefficients filters.old.filters_signalled_minus1)
        (filled result (filters.new.mapped_coeff_abs, filters.new.coeff_sign) reader.new.at) reader.old reader.new }
    ensures others { filters.new.filters_signalled_minus1 ≡ filters.old.filters_signalled_minus1 }
{
    let mut held = *reader;
    // By index: tried as iter_mut of both zipped, after which a proof knows nothing of what was written.
    for i in 0..7 * (filters.filters_signalled_minus1 as usize + 1) {
        let (magnitude, negative) = held.signed(3)?;
        filters.mapped_coeff_abs[i] = magnitude as u8;
        filters.coeff_sign[i] = negative;
    }
    *reader = held;
    Ok(())
}

// The filters of Cb or Cr, if they are signalled.
pub(crate) fn read_cc(
    reader: &mut Reader,
    signal: bool,
    filters: &mut VvcAlfCcFilters,
) -> Result<(), Refusal>
    requires { (filters.old ≡ to_cc no_cc.default) }
    ensures { Reads (cc signal) (filled result filters.new reader.new.at) reader.old reader.new }
{
    if !signal {
        return Ok(());
    }
    let count_minus1 = reader.ue_to(3)?;
    filters.filters_signalled_minus1 = count_minus1;
    read_cc_coefficients(reader, filters)?;
    Ok(())
}
