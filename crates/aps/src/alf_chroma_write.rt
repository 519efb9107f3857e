// The chroma and cross-component filters of alf_data(), written.
ghost use Rattle.std.specs.Prelude.{◌≡◌, ◌+◌, ◌*◌, ◌≤◌, ◌<◌, take, drop};
ghost use Rattle.aps.specs.Elements.{zipped};
ghost use Rattle.aps.specs.AlfSyntax.{chroma, alternative, alternatives, no_chroma, cc, cc_coefficients, no_cc};
ghost use Rattle.aps.specs.Writes.{Wrote};

use crate::alf::{VvcAlfCcFilters, VvcAlfChroma};
use crate::alf_fields::clips_sent;
use crate::alf_write::{put_clips, put_coefficients};
use crate::inferred::{all_inferred, unsent};
use crate::writer::Writer;
use bitstream::Refusal;

// One alternative, a row of the flat arrays: its coefficients and its clips. By index and no chunks: the row's number tells whether it is sent.
fn put_alternative(writer: &mut Writer, filters: &VvcAlfChroma, row: usize) -> Result<(), Refusal>
    requires { (writer.old.at ≤ 19000) × (row < 8) }
    ensures wrote { Wrote
        (alternative filters.now.alf_chroma_clip_flag filters.now.alf_chroma_num_alt_filters_minus1 row)
        (take 6 (drop (6 * row) (zipped filters.now.coeff_abs filters.now.coeff_sign)), take 6 (drop (6 * row) filters.now.clip_idx))
        writer.old writer.new result }
    ensures within { writer.new.at ≤ writer.old.at + 108 }
{
    let start = 6 * row;
    let end = start + 6;
    let n = if row <= filters.alf_chroma_num_alt_filters_minus1 as usize {
        6
    } else {
        0
    };
    put_coefficients(
        writer,
        n,
        &filters.coeff_abs[start..end],
        &filters.coeff_sign[start..end],
    )?;
    put_clips(
        writer,
        clips_sent(filters.alf_chroma_clip_flag, n),
        &filters.clip_idx[start..end],
    )
}

// The alternatives, one after another.
fn put_alternatives(writer: &mut Writer, filters: &VvcAlfChroma) -> Result<(), Refusal>
    requires { writer.old.at ≤ 15000 }
    ensures wrote { Wrote
        (alternatives filters.now.alf_chroma_clip_flag filters.now.alf_chroma_num_alt_filters_minus1)
        (zipped filters.now.coeff_abs filters.now.coeff_sign, filters.now.clip_idx)
        writer.old writer.new result }
    ensures within { writer.new.at ≤ writer.old.at + 864 }
{
    for row in 0..8 {
        put_alternative(writer, filters, row)?;
    }
    Ok(())
}

// Nothing is sent of chroma: all of it is 0.
fn no_chroma_sent(filters: &VvcAlfChroma) -> bool
    ensures { result ≡ no_chroma.is (
      filters.now.alf_chroma_clip_flag,
      (
        filters.now.alf_chroma_num_alt_filters_minus1,
        (zipped filters.now.coeff_abs filters.now.coeff_sign, filters.now.clip_idx),
      ),
    ) }
{
    !filters.alf_chroma_clip_flag
        & (filters.alf_chroma_num_alt_filters_minus1 == 0)
        & all_inferred(&filters.coeff_abs)
        & all_inferred(&filters.coeff_sign)
        & all_inferred(&filters.clip_idx)
}

// The chroma filters if they are signalled.
pub(crate) fn put_chroma(
    writer: &mut Writer,
    signal: bool,
    filters: &VvcAlfChroma,
) -> Result<(), Refusal>
    requires { writer.old.at ≤ 14000 }
    ensures wrote { Wrote (chroma signal) filters.now writer.old writer.new result }
    ensures within { writer.new.at ≤ writer.old.at + 872 }
{
    if !signal {
        return unsent(no_chroma_sent(filters));
    }
    writer.flag(filters.alf_chroma_clip_flag)?;
    writer.ue_to(filters.alf_chroma_num_alt_filters_minus1, 7)?;
    put_alternatives(writer, filters)
}

// The coefficients of Cb or Cr.
fn put_cc_coefficients(writer: &mut Writer, filters: &VvcAlfCcFilters) -> Result<(), Refusal>
    requires { (writer.old.at ≤ 20000) × (filters.now.filters_signalled_minus1 ≤ 3) }
    ensures wrote { Wrote (cc_coefficients filters.now.filters_signalled_minus1) (filters.now.mapped_coeff_abs, filters.now.coeff_sign) writer.old writer.new result }
    ensures within { writer.new.at ≤ writer.old.at + 112 }
{
    let n = 7 * (filters.filters_signalled_minus1 as usize + 1);
    for (&abs, &sign) in filters.mapped_coeff_abs[..n]
        .iter()
        .zip(&filters.coeff_sign[..n])
    {
        writer.signed(u32::from(abs), sign, 3)?;
    }
    unsent(all_inferred(&filters.mapped_coeff_abs[n..]) & all_inferred(&filters.coeff_sign[n..]))
}

// Nothing is sent of Cb or Cr: all of it is 0.
fn no_cc_sent(filters: &VvcAlfCcFilters) -> bool
    ensures { result ≡ no_cc.is (filters.now.filters_signalled_minus1, (filters.now.mapped_coeff_abs, filters.now.coeff_sign)) }
{
    (filters.filters_signalled_minus1 == 0)
        & all_inferred(&filters.mapped_coeff_abs)
        & all_inferred(&filters.coeff_sign)
}

// The filters of Cb or Cr if they are signalled.
pub(crate) fn put_cc(
    writer: &mut Writer,
    signal: bool,
    filters: &VvcAlfCcFilters,
) -> Result<(), Refusal>
    requires { writer.old.at ≤ 19000 }
    ensures wrote { Wrote (cc signal) filters.now writer.old writer.new result }
    ensures within { writer.new.at ≤ writer.old.at + 117 }
{
    if !signal {
        return unsent(no_cc_sent(filters));
    }
    writer.ue_to(filters.filters_signalled_minus1, 3)?;
    put_cc_coefficients(writer, filters)
}
