// alf_data(), H.266 7.3.2.18, written: what is not sent must be 0.
ghost use Rattle.std.specs.Prelude.{◌≡◌, ◌+◌, ◌*◌, ◌≤◌, ◌<◌, ltb, leb, length};
ghost use Rattle.aps.specs.Codec.{u, judged, when, each};
ghost use Rattle.aps.specs.Elements.{flag, no_flag, no_number, no_signed, apart};
ghost use Rattle.aps.specs.AlfSyntax.{coefficient, luma, luma_indexes, luma_filters, no_luma};
ghost use Rattle.aps.specs.AlfSyntax.{alf, alf_filters};
ghost use Rattle.aps.specs.Writes.{Wrote};

use crate::alf::{VvcAlfData, VvcAlfLuma};
use crate::alf_chroma_write::{put_cc, put_chroma};
use crate::alf_fields::{ceil_log2, clips_sent};
use crate::inferred::{all_inferred, unsent};
use crate::writer::Writer;
use bitstream::Refusal;

// The first n coefficients of two arrays; the rest are 0.
pub(crate) fn put_coefficients(
    writer: &mut Writer,
    n: usize,
    abs: &[u32],
    sign: &[bool],
) -> Result<(), Refusal>
    requires { (writer.old.at ≤ 20000) × (n ≤ length abs.now) × (n ≤ 300) × (length sign.now ≡ length abs.now) }
    ensures wrote { Wrote (apart (each (length abs.now) (λ i. when (ltb i n) no_signed coefficient))) (abs.now, sign.now) writer.old writer.new result }
    ensures within { writer.new.at ≤ writer.old.at + 16 * n }
{
    for (&abs, &sign) in abs[..n].iter().zip(&sign[..n]) {
        writer.coefficient(abs, sign)?;
    }
    unsent(all_inferred(&abs[n..]) & all_inferred(&sign[n..]))
}

// The first n clips of an array; the rest are 0.
pub(crate) fn put_clips(writer: &mut Writer, n: usize, clips: &[u8]) -> Result<(), Refusal>
    requires { (writer.old.at ≤ 30000) × (n ≤ length clips.now) × (n ≤ 300) }
    ensures wrote { Wrote (each (length clips.now) (λ i. when (ltb i n) no_number (u 2))) clips.now writer.old writer.new result }
    ensures within { writer.new.at ≤ writer.old.at + 2 * n }
{
    for &clip in &clips[..n] {
        writer.u(u32::from(clip), 2)?;
    }
    unsent(all_inferred(&clips[n..]))
}

// An index, at most count - 1.
fn put_index(writer: &mut Writer, count_minus1: u32, bits: u32, index: u8) -> Result<(), Refusal>
    requires { (writer.old.at ≤ 32700) × (bits ≤ 32) }
    ensures wrote { Wrote (judged (λ x. leb x count_minus1) (u bits)) index writer.old writer.new result }
    ensures within { writer.new.at ≤ writer.old.at + bits }
{
    let index = u32::from(index);
    if count_minus1 < index {
        return Err(Refusal::InvalidData);
    }
    writer.u(index, bits)
}

// The 25 indexes if there is more than one filter, else they are 0.
fn put_indexes(writer: &mut Writer, count_minus1: u32, indexes: &[u8; 25]) -> Result<(), Refusal>
    requires { (writer.old.at ≤ 30000) × (count_minus1 ≤ 24) }
    ensures wrote { Wrote (luma_indexes count_minus1) indexes.now writer.old writer.new result }
    ensures within { writer.new.at ≤ writer.old.at + 800 }
{
    if count_minus1 == 0 {
        return unsent(all_inferred(indexes));
    }
    let bits = ceil_log2(count_minus1 + 1);
    for &index in indexes {
        put_index(writer, count_minus1, bits, index)?;
    }
    Ok(())
}

// The indexes, coefficients and clips of the luma filters.
fn put_luma_filters(writer: &mut Writer, filters: &VvcAlfLuma) -> Result<(), Refusal>
    requires { (writer.old.at ≤ 10000) × (filters.now.alf_luma_num_filters_signalled_minus1 ≤ 24) }
    ensures wrote { Wrote
        (luma_filters filters.now.alf_luma_clip_flag filters.now.alf_luma_num_filters_signalled_minus1)
        (filters.now.alf_luma_coeff_delta_idx, ((filters.now.coeff_abs, filters.now.coeff_sign), filters.now.clip_idx))
        writer.old writer.new result }
    ensures within { writer.new.at ≤ writer.old.at + 6200 }
{
    let count_minus1 = filters.alf_luma_num_filters_signalled_minus1;
    let n = 12 * (count_minus1 as usize + 1);
    put_indexes(writer, count_minus1, &filters.alf_luma_coeff_delta_idx)?;
    put_coefficients(writer, n, &filters.coeff_abs, &filters.coeff_sign)?;
    put_clips(
        writer,
        clips_sent(filters.alf_luma_clip_flag, n),
        &filters.clip_idx,
    )
}

// Nothing is sent of luma: all of it is 0.
fn no_luma_sent(filters: &VvcAlfLuma) -> bool
    ensures { result ≡ no_luma.is (
      filters.now.alf_luma_clip_flag,
      (
        filters.now.alf_luma_num_filters_signalled_minus1,
        (filters.now.alf_luma_coeff_delta_idx, ((filters.now.coeff_abs, filters.now.coeff_sign), filters.now.clip_idx)),
      ),
    ) }
{
    !filters.alf_luma_clip_flag
        & (filters.alf_luma_num_filters_signalled_minus1 == 0)
        & all_inferred(&filters.alf_luma_coeff_delta_idx)
        & all_inferred(&filters.coeff_abs)
        & all_inferred(&filters.coeff_sign)
        & all_inferred(&filters.clip_idx)
}

// The luma filters if they are signalled.
fn put_luma(writer: &mut Writer, signal: bool, filters: &VvcAlfLuma) -> Result<(), Refusal>
    requires { writer.old.at ≤ 5000 }
    ensures wrote { Wrote (luma signal) filters.now writer.old writer.new result }
    ensures within { writer.new.at ≤ writer.old.at + 6300 }
{
    if !signal {
        return unsent(no_luma_sent(filters));
    }
    writer.flag(filters.alf_luma_clip_flag)?;
    writer.ue_to(filters.alf_luma_num_filters_signalled_minus1, 24)?;
    put_luma_filters(writer, filters)
}

// A flag that is sent where chroma is present.
fn put_chroma_flag(writer: &mut Writer, chroma: bool, b: bool) -> Result<(), Refusal>
    requires { writer.old.at ≤ 32700 }
    ensures wrote { Wrote (when chroma no_flag flag) b writer.old writer.new result }
    ensures within { writer.new.at ≤ writer.old.at + 1 }
{
    if chroma {
        return writer.flag(b);
    }
    unsent(!b)
}

// alf_data().
pub(crate) fn write_alf_data(
    writer: &mut Writer,
    chroma: bool,
    d: &VvcAlfData,
) -> Result<(), Refusal>
    requires { writer.old.at ≤ 100 }
    ensures wrote { Wrote (alf chroma) d.now writer.old writer.new result }
    ensures within { writer.new.at ≤ writer.old.at + 7410 }
{
    writer.flag(d.alf_luma_filter_signal_flag)?;
    put_chroma_flag(writer, chroma, d.alf_chroma_filter_signal_flag)?;
    put_chroma_flag(writer, chroma, d.alf_cc_cb_filter_signal_flag)?;
    put_chroma_flag(writer, chroma, d.alf_cc_cr_filter_signal_flag)?;
    put_luma(writer, d.alf_luma_filter_signal_flag, &d.luma)?;
    put_chroma(writer, d.alf_chroma_filter_signal_flag, &d.chroma)?;
    put_cc(writer, d.alf_cc_cb_filter_signal_flag, &d.cc_cb)?;
    put_cc(writer, d.alf_cc_cr_filter_signal_flag, &d.cc_cr)
}
