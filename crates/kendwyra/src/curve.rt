// The luma curve of an LMCS set (H.266 7.4.3.19), by C's struct of the set: its tables, and where samples land.
ghost use Rattle.std.specs.Prelude.{◌≡◌};
ghost use Rattle.luma_curve.specs.Curve.{luma_curve};
ghost use Rattle.luma_curve.specs.Map.{map_sample, map_range};
ghost use Rattle.kendwyra.specs.Codes.{code, value_left, flags_first};
ghost use Rattle.kendwyra.specs.Structs.{lmcs_flags, lmcs_in};

use crate::meanings::{put_value, set_of};
use crate::structs::ApsLmcs;
use luma_curve::curve::{LumaCurve, luma_curve};
use luma_curve::map::{Ends, map_range, map_sample};

// The tables at a bit depth. 2; 7; 10; 11.
#[tactic(auto, unfolding(crate::specs::Codes::code, crate::specs::Codes::value_left, crate::specs::Codes::flags_first))]
#[unsafe(no_mangle)]
pub extern "C" fn aps_lmcs_curve(set: &ApsLmcs, depth: u32, curve: &mut LumaCurve) -> u32
    ensures code { result ≡ code (flags_first (lmcs_flags set.now) (luma_curve (lmcs_in set.now) depth)) }
    ensures curve { curve.new ≡ value_left (flags_first (lmcs_flags set.now) (luma_curve (lmcs_in set.now) depth)) curve.old }
{
    match set_of(set) {
        Ok(lmcs) => put_value(luma_curve(&lmcs, depth), curve),
        Err(why) => why.into(),
    }
}

// Where a sample lands. 2; 7; 10; 11; 12.
#[tactic(auto, unfolding(crate::specs::Codes::code, crate::specs::Codes::value_left, crate::specs::Codes::flags_first))]
#[unsafe(no_mangle)]
pub extern "C" fn aps_lmcs_map_sample(
    set: &ApsLmcs,
    depth: u32,
    sample: u32,
    mapped: &mut u32,
) -> u32
    ensures code { result ≡ code (flags_first (lmcs_flags set.now) (map_sample (lmcs_in set.now) depth sample)) }
    ensures mapped { mapped.new ≡ value_left (flags_first (lmcs_flags set.now) (map_sample (lmcs_in set.now) depth sample)) mapped.old }
{
    match set_of(set) {
        Ok(lmcs) => put_value(map_sample(&lmcs, depth, sample), mapped),
        Err(why) => why.into(),
    }
}

// The least and the greatest value that the samples from lower to upper are mapped to. 2; 7; 10; 11; 12.
#[tactic(auto, unfolding(crate::specs::Codes::code, crate::specs::Codes::value_left, crate::specs::Codes::flags_first))]
#[unsafe(no_mangle)]
pub extern "C" fn aps_lmcs_map_range(
    set: &ApsLmcs,
    depth: u32,
    lower: u32,
    upper: u32,
    ends: &mut Ends,
) -> u32
    ensures code { result ≡ code (flags_first (lmcs_flags set.now) (map_range (lmcs_in set.now) depth lower upper)) }
    ensures ends { ends.new ≡ value_left (flags_first (lmcs_flags set.now) (map_range (lmcs_in set.now) depth lower upper)) ends.old }
{
    match set_of(set) {
        Ok(lmcs) => put_value(map_range(&lmcs, depth, lower, upper), ends),
        Err(why) => why.into(),
    }
}
