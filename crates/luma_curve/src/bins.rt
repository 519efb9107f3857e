// The codewords of the 16 bins and their running sums, judged.
ghost use Rattle.std.specs.Prelude.{◌≡◌, ℕ, true, false, ◌+◌, ◌*◌, ◌-◌, ◌^◌, ◌≤◌, ◌<◌, ◌&&◌, leb, get_or, IfOk, IfErr};
ghost use Rattle.bitstream.specs.declared.Refusal.TheVariants.{CodewordOutOfRange};
ghost use Rattle.aps.specs.Writing.{whole_lmcs};
ghost use Rattle.luma_curve.specs.Bin.{signed_value, bin_in_range, all_below, pivot, row};
ghost use Rattle.luma_curve.specs.Inner.{Ranges, IsSigned, AreCodewords, IsJudged};

use crate::org_cw::OrgCw;
use aps::lmcs::VvcLmcsData;
use aps::payload::{ApsOf, Payload};
use bitstream::Refusal;

// The codewords of the bins, without and with the chroma delta.
#[derive(Clone, Copy)]
pub(crate) struct Codewords {
    pub(crate) luma: [u32; 16],
    pub(crate) chroma: [u32; 16],
}

// The bins of a curve that is taken.
#[derive(Clone, Copy)]
pub(crate) struct Bins {
    pub(crate) org_cw: OrgCw,
    pub(crate) luma: [u32; 16],
    pub(crate) chroma: [u32; 16],
    pub(crate) pivots: [u32; 17],
}

// A magnitude with its sign flag.
fn signed_value(magnitude: u32, negative: bool) -> i32
    requires { magnitude < 32768 }
    ensures value { result ≡ signed_value magnitude negative }
    ensures within { IsSigned magnitude result }
{
    let magnitude = magnitude as i32;
    if negative { -magnitude } else { magnitude }
}

// The codewords of all bins: 0 where a bin is not coded.
fn all_codewords(lmcs: &VvcLmcsData, o: OrgCw) -> Result<Codewords, Refusal>
    requires { Ranges lmcs.now }
    ensures ok { IfOk result (λ w. AreCodewords lmcs.now o.value w) }
    ensures err { IfErr result (λ why. (why ≡ CodewordOutOfRange) × (all_below 16 (bin_in_range lmcs.now o.value) ≡ false)) }
{
    let mut luma = [0; 16];
    let mut chroma = [0; 16];
    let chroma_delta = signed_value(
        u32::from(lmcs.lmcs_delta_abs_crs),
        lmcs.lmcs_delta_sign_crs_flag,
    );
    for i in lmcs.lmcs_min_bin_idx as usize..16 - lmcs.lmcs_delta_max_bin_idx as usize {
        let delta = signed_value(lmcs.lmcs_delta_abs_cw[i], lmcs.lmcs_delta_sign_cw_flag[i]);
        let sum = o.value as i32 + delta;
        luma[i] = o.codeword(sum)?;
        chroma[i] = o.codeword(sum + chroma_delta)?;
    }
    Ok(Codewords { luma, chroma })
}

// The running sums, from 0 on.
fn pivots(luma: [u32; 16]) -> [u32; 17]
    requires { (k : ℕ) → get_or luma k 0 ≤ 2048 }
    ensures { result ≡ row 17 (pivot (λ k. get_or luma k 0)) }
{
    let mut pivots = [0; 17];
    for i in 0..16 {
        pivots[i + 1] = pivots[i] + luma[i];
    }
    pivots
}

// The bins of a set at a depth: 2; 7; 10; 11.
pub(crate) fn judged(set: &ApsOf<VvcLmcsData>, depth: u32) -> Result<Bins, Refusal>
    ensures { IsJudged (whole_lmcs set.now) depth result }
{
    if !VvcLmcsData::is_writable(set) {
        return Err(Refusal::InvalidData);
    }
    let org_cw = OrgCw::new(depth)?;
    let Codewords { luma, chroma } = all_codewords(&set.payload, org_cw)?;
    let pivots = pivots(luma);
    if 16 * org_cw.value <= pivots[16] {
        return Err(Refusal::CodewordsTooLarge);
    }
    Ok(Bins {
        org_cw,
        luma,
        chroma,
        pivots,
    })
}
