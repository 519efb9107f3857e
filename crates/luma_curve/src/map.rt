// Where the curve maps a sample to, H.266 8.7.5.2, and the ends of a range of samples.
ghost use Rattle.std.specs.Prelude.{◌≡◌, ℕ, ◌*◌, ◌≤◌, ◌<◌, get_or};
ghost use Rattle.aps.specs.Writing.{whole_lmcs};
ghost use Rattle.luma_curve.specs.Answers.{answer};
ghost use Rattle.luma_curve.specs.Bin.{pivot, row};
ghost use Rattle.luma_curve.specs.Map.{mapped, map_sample, map_range};
ghost use Rattle.luma_curve.specs.Inner.{IsJudgedRange};

use crate::bins::{Bins, judged};
use aps::lmcs::VvcLmcsData;
use aps::payload::ApsOf;
use bitstream::Refusal;

// The least and the greatest value that the samples of a range are mapped to.
#[derive(Clone, Copy)]
#[repr(C)]
pub struct Ends {
    pub least: u32,
    pub greatest: u32,
}

// The bins of a set at a depth, for samples lower to upper: 2; 7; 10; 11; 12.
fn judged_range(
    set: &ApsOf<VvcLmcsData>,
    depth: u32,
    lower: u32,
    upper: u32,
) -> Result<Bins, Refusal>
    ensures { IsJudgedRange (whole_lmcs set.now) depth lower upper result }
{
    let bins = judged(set, depth)?;
    if upper < lower || 16 * bins.org_cw.value <= upper {
        return Err(Refusal::SampleOutOfRange);
    }
    Ok(bins)
}

// Where a sample lands.
fn mapped(bins: Bins, sample: u32) -> u32
    requires luma { (k : ℕ) → get_or bins.luma k 0 ≤ 2048 }
    requires pivots { bins.pivots ≡ row 17 (pivot (λ k. get_or bins.luma k 0)) }
    requires sample { sample < 16 * bins.org_cw.value }
    ensures { result ≡ mapped bins.org_cw.value (λ k. get_or bins.luma k 0) sample }
{
    let o = bins.org_cw.value;
    let bin = sample / o;
    let i = bin as usize;
    let forward = bins.org_cw.forward(bins.luma[i]);
    bins.pivots[i] + (forward * (sample - bin * o) + 1024) / 2048
}

// A sample mapped by the curve of a set at a depth: 2; 7; 10; 11; 12.
pub fn map_sample(set: &ApsOf<VvcLmcsData>, depth: u32, sample: u32) -> Result<u32, Refusal>
    ensures { answer result ≡ map_sample (whole_lmcs set.now) depth sample }
{
    let bins = judged_range(set, depth, sample, sample)?;
    Ok(mapped(bins, sample))
}

// The least and the greatest that samples lower to upper are mapped to: 2; 7; 10; 11; 12. The map never falls, so these are its ends.
pub fn map_range(
    set: &ApsOf<VvcLmcsData>,
    depth: u32,
    lower: u32,
    upper: u32,
) -> Result<Ends, Refusal>
    ensures { answer result ≡ map_range (whole_lmcs set.now) depth lower upper }
{
    let bins = judged_range(set, depth, lower, upper)?;
    let least = mapped(bins, lower);
    let greatest = mapped(bins, upper);
    Ok(Ends { least, greatest })
}
