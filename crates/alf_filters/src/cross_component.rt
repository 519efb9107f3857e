// The cross-component filters of Cb and Cr.
ghost use Rattle.std.specs.Prelude.{◌≡◌};
ghost use Rattle.bitstream.specs.Outcome.{numbered};
ghost use Rattle.aps.specs.Writing.{whole_alf};
ghost use Rattle.alf_filters.specs.Answers.{cb_filters, cr_filters};
ghost use Rattle.alf_filters.specs.Filters.{cc_rows};
ghost use Rattle.alf_filters.specs.Inner.{CcFits};

use crate::entries::put_powers;
use crate::judge::{is_depth, judge};
use aps::alf::{VvcAlfCcFilters, VvcAlfData};
use aps::payload::{ApsOf, Payload};
use bitstream::Refusal;

// CcAlfApsCoeffCb or CcAlfApsCoeffCr: how many filters were sent, and 4 rows of 7, of which those past them are 0.
#[derive(Clone, Copy)]
#[repr(C)]
pub struct CcFilters {
    pub count: u32,
    pub coefficients: [i32; 28],
}

// The filters that were sent.
fn cc_rows(cc: &VvcAlfCcFilters) -> CcFilters
    requires { CcFits cc.now }
    ensures { result ≡ cc_rows cc.now }
{
    let count = cc.filters_signalled_minus1 + 1;
    let n = 7 * count as usize;
    let mut coefficients = [0; 28];
    put_powers(
        &cc.mapped_coeff_abs[..n],
        &cc.coeff_sign[..n],
        &mut coefficients[..n],
    );
    CcFilters {
        count,
        coefficients,
    }
}

// The Cb filters of a set at a bit depth, on which only the refusal turns. 2; 7: a depth outside 8 to 12; 8.
pub fn cb_filters(set: &ApsOf<VvcAlfData>, depth: u32) -> Result<CcFilters, Refusal>
    ensures { numbered result ≡ cb_filters (whole_alf set.now) depth }
{
    let alf = &set.payload;
    judge(
        set,
        is_depth(depth),
        Refusal::DepthOutOfRange,
        alf.alf_cc_cb_filter_signal_flag,
    )?;
    Ok(cc_rows(&alf.cc_cb))
}

// The Cr filters, likewise.
pub fn cr_filters(set: &ApsOf<VvcAlfData>, depth: u32) -> Result<CcFilters, Refusal>
    ensures { numbered result ≡ cr_filters (whole_alf set.now) depth }
{
    let alf = &set.payload;
    judge(
        set,
        is_depth(depth),
        Refusal::DepthOutOfRange,
        alf.alf_cc_cr_filter_signal_flag,
    )?;
    Ok(cc_rows(&alf.cc_cr))
}
