// The 25 luma filters.
ghost use Rattle.std.specs.Prelude.{◌≡◌, ℕ, ◌≤◌, ◌<◌, pos, length, get_or};
ghost use Rattle.bitstream.specs.Outcome.{numbered};
ghost use Rattle.aps.specs.Writing.{whole_alf};
ghost use Rattle.alf_filters.specs.Answers.{luma_filters};
ghost use Rattle.alf_filters.specs.Filters.{named, luma_coefficient, luma_clip, luma_rows};
ghost use Rattle.alf_filters.specs.Inner.{LumaFits};

use crate::entries::{put_clips, put_coefficients};
use crate::judge::{is_depth, judge};
use aps::alf::{VvcAlfData, VvcAlfLuma};
use aps::payload::{ApsOf, Payload};
use bitstream::Refusal;

// AlfCoeffL and AlfClipL: 25 rows of 12.
#[derive(Clone, Copy)]
#[repr(C)]
pub struct LumaFilters {
    pub coefficients: [i32; 300],
    pub clips: [u32; 300],
}

// Where the filter begins that index i names.
fn named(luma: &VvcAlfLuma, i: usize) -> usize
    requires { LumaFits luma.now × (i < 25) }
    ensures { (result ≡ named luma.now i) × (result ≤ 288) }
{
    12 * luma.alf_luma_coeff_delta_idx[i] as usize
}

// The coefficients of filter i, which are those of the row that its index names.
pub(crate) fn put_luma_coefficients(luma: &VvcAlfLuma, i: usize, out: &mut [i32])
    requires { LumaFits luma.now × (i < 25) × (length out.old ≡ 12) }
    ensures { (j : ℕ) → j < 12 → get_or out.new j (pos 0) ≡ luma_coefficient luma.now i j }
{
    let row = named(luma, i);
    put_coefficients(
        &luma.coeff_abs[row..row + 12],
        &luma.coeff_sign[row..row + 12],
        out,
    );
}

// Its clips, which are of the same row.
fn put_luma_clips(luma: &VvcAlfLuma, depth: u32, i: usize, out: &mut [u32])
    requires { LumaFits luma.now × (8 ≤ depth) × (depth ≤ 12) × (i < 25) × (length out.old ≡ 12) }
    ensures { (j : ℕ) → j < 12 → get_or out.new j 0 ≡ luma_clip depth luma.now i j }
{
    let row = named(luma, i);
    put_clips(
        depth,
        luma.alf_luma_clip_flag,
        &luma.clip_idx[row..row + 12],
        out,
    );
}

// All 25 filters.
fn luma_rows(luma: &VvcAlfLuma, depth: u32) -> LumaFilters
    requires { LumaFits luma.now × (8 ≤ depth) × (depth ≤ 12) }
    ensures { result ≡ luma_rows depth luma.now }
{
    let mut coefficients = [0; 300];
    let mut clips = [0; 300];
    for i in 0..25 {
        let first = 12 * i;
        put_luma_coefficients(luma, i, &mut coefficients[first..first + 12]);
        put_luma_clips(luma, depth, i, &mut clips[first..first + 12]);
    }
    LumaFilters {
        coefficients,
        clips,
    }
}

// The luma filters of a set at a bit depth. 2; 7: a depth outside 8 to 12; 8.
pub fn luma_filters(set: &ApsOf<VvcAlfData>, depth: u32) -> Result<LumaFilters, Refusal>
    ensures { numbered result ≡ luma_filters (whole_alf set.now) depth }
{
    let alf = &set.payload;
    judge(
        set,
        is_depth(depth),
        Refusal::DepthOutOfRange,
        alf.alf_luma_filter_signal_flag,
    )?;
    Ok(luma_rows(&alf.luma, depth))
}
