// lmcs_data(), H.266 7.3.2.19, written: what is not sent must be 0.
ghost use Rattle.std.specs.Prelude.{◌≡◌, ◌+◌, ◌≤◌, length};
ghost use Rattle.aps.specs.Codec.{u, when};
ghost use Rattle.aps.specs.Elements.{signed, no_signed};
ghost use Rattle.aps.specs.LmcsSyntax.{coded_from, lmcs_head, lmcs_codewords, from_lmcs, lmcs};
ghost use Rattle.aps.specs.Writes.{Wrote};

use crate::inferred::unsent;
use crate::lmcs::{Bins, VvcLmcsData};
use crate::writer::Writer;
use bitstream::Refusal;

// Bin i is between min and 15 - max.
fn bin_coded(bins: Bins, i: usize) -> bool
    ensures { result ≡ coded_from bins.min bins.max i }
{
    bins.min as usize <= i && i <= 15 - bins.max as usize
}

// A delta, its magnitude u(n) and its sign, where it is sent; else both are 0.
fn put_delta(writer: &mut Writer, sent: bool, abs: u32, sign: bool, n: u32) -> Result<(), Refusal>
    requires { (writer.old.at ≤ 32600) × (n ≤ 32) }
    ensures wrote { Wrote (when sent no_signed (signed (u n))) (abs, sign) writer.old writer.new result }
    ensures within { writer.new.at ≤ writer.old.at + (n + 1) }
{
    if sent {
        return writer.signed(abs, sign, n);
    }
    unsent((abs == 0) & !sign)
}

// The three values that say which bins are coded, and how wide.
fn put_head(writer: &mut Writer, bins: Bins) -> Result<(), Refusal>
    requires { writer.old.at ≤ 32000 }
    ensures wrote { Wrote lmcs_head (bins.min, (bins.max, bins.prec)) writer.old writer.new result }
    ensures within { writer.new.at ≤ writer.old.at + 25 }
{
    writer.ue_to(bins.min, 15)?;
    writer.ue_to(bins.max, 15)?;
    writer.ue_to(bins.prec, 14)
}

// The codewords of bins min to 15 - max; those of the other bins are 0. By index, not zipped: a bin's number says whether it is coded.
fn put_codewords(writer: &mut Writer, bins: Bins, curve: &VvcLmcsData) -> Result<(), Refusal>
    requires { writer.old.at ≤ 31000 }
    ensures wrote { Wrote (lmcs_codewords (bins.min, (bins.max, bins.prec))) (from_lmcs curve.now).1.0 writer.old writer.new result }
    ensures within { writer.new.at ≤ writer.old.at + 256 }
{
    let n = bins.prec + 1;
    for i in 0..16 {
        let coded = bin_coded(bins, i);
        put_delta(
            writer,
            coded,
            curve.lmcs_delta_abs_cw[i],
            curve.lmcs_delta_sign_cw_flag[i],
            n,
        )?;
    }
    Ok(())
}

// lmcs_data().
pub(crate) fn write_lmcs_data(
    writer: &mut Writer,
    chroma: bool,
    curve: &VvcLmcsData,
) -> Result<(), Refusal>
    requires { writer.old.at ≤ 30000 }
    ensures wrote { Wrote (lmcs chroma) curve.now writer.old writer.new result }
    ensures within { writer.new.at ≤ writer.old.at + 285 }
{
    let bins = Bins::new(
        curve.lmcs_min_bin_idx,
        curve.lmcs_delta_max_bin_idx,
        curve.lmcs_delta_cw_prec_minus1,
    )?;
    put_head(writer, bins)?;
    put_codewords(writer, bins, curve)?;
    put_delta(
        writer,
        chroma,
        u32::from(curve.lmcs_delta_abs_crs),
        curve.lmcs_delta_sign_crs_flag,
        3,
    )
}
