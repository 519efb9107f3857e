// The filters of an ALF set as they act (H.266 7.4.3.18), by C's struct of the set.
ghost use Rattle.std.specs.Prelude.{◌≡◌};
ghost use Rattle.alf_filters.specs.Answers.{luma_filters, chroma_filters, cb_filters, cr_filters, luma_weights};
ghost use Rattle.kendwyra.specs.Codes.{result_code, result_left, flagged};
ghost use Rattle.kendwyra.specs.Structs.{alf_flags, alf_in};

use crate::meanings::{put, set_of};
use crate::structs::ApsAlf;
use alf_filters::chroma::{ChromaFilters, chroma_filters};
use alf_filters::cross_component::{CcFilters, cb_filters, cr_filters};
use alf_filters::luma::{LumaFilters, luma_filters};
use alf_filters::weights::{LumaWeights, luma_weights};

// The 25 luma filters at a bit depth. 2; 7; 8.
#[tactic(auto, unfolding(crate::specs::Codes::result_code, crate::specs::Codes::result_left, crate::specs::Codes::flagged))]
#[unsafe(no_mangle)]
pub extern "C" fn aps_alf_luma_filters(set: &ApsAlf, depth: u32, filters: &mut LumaFilters) -> u32
    ensures code { result ≡ result_code (flagged (alf_flags set.now) (luma_filters (alf_in set.now) depth)) }
    ensures filters { filters.new ≡ result_left (flagged (alf_flags set.now) (luma_filters (alf_in set.now) depth)) filters.old }
{
    match set_of(set) {
        Ok(alf) => put(luma_filters(&alf, depth), filters),
        Err(why) => why.into(),
    }
}

// The chroma alternatives that were sent. 2; 7; 8.
#[tactic(auto, unfolding(crate::specs::Codes::result_code, crate::specs::Codes::result_left, crate::specs::Codes::flagged))]
#[unsafe(no_mangle)]
pub extern "C" fn aps_alf_chroma_filters(
    set: &ApsAlf,
    depth: u32,
    filters: &mut ChromaFilters,
) -> u32
    ensures code { result ≡ result_code (flagged (alf_flags set.now) (chroma_filters (alf_in set.now) depth)) }
    ensures filters { filters.new ≡ result_left (flagged (alf_flags set.now) (chroma_filters (alf_in set.now) depth)) filters.old }
{
    match set_of(set) {
        Ok(alf) => put(chroma_filters(&alf, depth), filters),
        Err(why) => why.into(),
    }
}

// The filters of Cb that were sent. 2; 7; 8.
#[tactic(auto, unfolding(crate::specs::Codes::result_code, crate::specs::Codes::result_left, crate::specs::Codes::flagged))]
#[unsafe(no_mangle)]
pub extern "C" fn aps_alf_cb_filters(set: &ApsAlf, depth: u32, filters: &mut CcFilters) -> u32
    ensures code { result ≡ result_code (flagged (alf_flags set.now) (cb_filters (alf_in set.now) depth)) }
    ensures filters { filters.new ≡ result_left (flagged (alf_flags set.now) (cb_filters (alf_in set.now) depth)) filters.old }
{
    match set_of(set) {
        Ok(alf) => put(cb_filters(&alf, depth), filters),
        Err(why) => why.into(),
    }
}

// The filters of Cr that were sent. 2; 7; 8.
#[tactic(auto, unfolding(crate::specs::Codes::result_code, crate::specs::Codes::result_left, crate::specs::Codes::flagged))]
#[unsafe(no_mangle)]
pub extern "C" fn aps_alf_cr_filters(set: &ApsAlf, depth: u32, filters: &mut CcFilters) -> u32
    ensures code { result ≡ result_code (flagged (alf_flags set.now) (cr_filters (alf_in set.now) depth)) }
    ensures filters { filters.new ≡ result_left (flagged (alf_flags set.now) (cr_filters (alf_in set.now) depth)) filters.old }
{
    match set_of(set) {
        Ok(alf) => put(cr_filters(&alf, depth), filters),
        Err(why) => why.into(),
    }
}

// One luma filter as weights. 2, and 2 for a number above 24; 8.
#[tactic(auto, unfolding(crate::specs::Codes::result_code, crate::specs::Codes::result_left, crate::specs::Codes::flagged))]
#[unsafe(no_mangle)]
pub extern "C" fn aps_alf_luma_weights(set: &ApsAlf, filter: u32, weights: &mut LumaWeights) -> u32
    ensures code { result ≡ result_code (flagged (alf_flags set.now) (luma_weights (alf_in set.now) filter)) }
    ensures weights { weights.new ≡ result_left (flagged (alf_flags set.now) (luma_weights (alf_in set.now) filter)) weights.old }
{
    match set_of(set) {
        Ok(alf) => put(luma_weights(&alf, filter), weights),
        Err(why) => why.into(),
    }
}
