// A luma filter as weights.
ghost use Rattle.std.specs.Prelude.{◌≡◌, ℕ, ◌≤◌, ◌<◌, pos, ◌-ℤ◌, ◌*ℤ◌, nat_abs, get_or, IfOk};
ghost use Rattle.aps.specs.ScalingSyntax.{tabulate};
ghost use Rattle.bitstream.specs.Outcome.{numbered};
ghost use Rattle.aps.specs.Writing.{whole_alf};
ghost use Rattle.alf_filters.specs.Answers.{luma_weights};
ghost use Rattle.alf_filters.specs.Weights.{weight, total, weights_of, AreExact};
ghost use Rattle.alf_filters.specs.Inner.{LumaFits};

use crate::judge::judge;
use crate::luma::put_luma_coefficients;
use aps::alf::{VvcAlfData, VvcAlfLuma};
use aps::payload::{ApsOf, Payload};
use bitstream::Refusal;

// The twelve taps and the centre, thirteen weights in all.
#[derive(Clone, Copy)]
#[repr(C)]
pub struct LumaWeights {
    pub taps: [f32; 12],
    pub centre: f32,
}

// k / 128; 0 gives +0.
fn weight(k: i32) -> f32
    requires { nat_abs k ≤ 4096 }
    ensures { result ≡ weight k }
{
    k as f32 / 128.0
}

// Each coefficient over 128, and 1 minus twice their sum.
fn weigh(row: &[i32; 12]) -> LumaWeights
    requires { (j : ℕ) → j < 12 → nat_abs (get_or row.now j (pos 0)) ≤ 128 }
    ensures taps { result.taps ≡ tabulate 0 12 (λ j. weight (get_or row.now j (pos 0))) }
    ensures centre { result.centre ≡ weight (pos 128 -ℤ pos 2 *ℤ total 12 (λ j. get_or row.now j (pos 0))) }
{
    let mut taps = [0.0; 12];
    let mut sum = 0;
    for (j, tap) in taps.iter_mut().enumerate() {
        *tap = weight(row[j]);
        sum += row[j];
    }
    LumaWeights {
        taps,
        centre: weight(128 - 2 * sum),
    }
}

// The weights of filter i.
fn weights_of(luma: &VvcAlfLuma, i: usize) -> LumaWeights
    requires { LumaFits luma.now × (i < 25) }
    ensures { result ≡ weights_of luma.now i }
{
    let mut row = [0; 12];
    put_luma_coefficients(luma, i, &mut row);
    weigh(&row)
}

// The weights of one luma filter of a set. 2, and 2 for a number above 24; 8.
pub fn luma_weights(set: &ApsOf<VvcAlfData>, filter: u32) -> Result<LumaWeights, Refusal>
    ensures answer { numbered result ≡ luma_weights (whole_alf set.now) filter }
    ensures exact { IfOk result (λ weights. AreExact set.now.payload.luma filter weights) }
{
    let alf = &set.payload;
    judge(
        set,
        filter <= 24,
        Refusal::InvalidData,
        alf.alf_luma_filter_signal_flag,
    )?;
    Ok(weights_of(&alf.luma, filter as usize))
}
