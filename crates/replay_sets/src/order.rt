// A set's fields in one order: kind, id, chroma flag and extension flag, then those of its kind in the order of C's struct, rows one after another.
use aps::alf::{VvcAlfCcFilters, VvcAlfChroma, VvcAlfData, VvcAlfLuma};
use aps::aps::{ApsKind, VvcAps};
use aps::lmcs::VvcLmcsData;
use aps::scaling_list::VvcScalingListData;

// A field as a number.
pub trait Field: Copy {
    fn number(self) -> i64;

    // The field with another number, if it can hold that.
    fn with(self, number: i64) -> Option<Self>;
}

// A set stays of its kind.
impl Field for ApsKind {
    fn number(self) -> i64 {
        i64::from(u8::from(self))
    }

    fn with(self, number: i64) -> Option<Self> {
        (number == self.number()).then_some(self)
    }
}

impl Field for bool {
    fn number(self) -> i64 {
        i64::from(self)
    }

    fn with(self, number: i64) -> Option<Self> {
        match number {
            0 => Some(false),
            1 => Some(true),
            _ => None,
        }
    }
}

impl Field for u8 {
    fn number(self) -> i64 {
        i64::from(self)
    }

    fn with(self, number: i64) -> Option<Self> {
        u8::try_from(number).ok()
    }
}

impl Field for u32 {
    fn number(self) -> i64 {
        i64::from(self)
    }

    fn with(self, number: i64) -> Option<Self> {
        u32::try_from(number).ok()
    }
}

impl Field for i32 {
    fn number(self) -> i64 {
        i64::from(self)
    }

    fn with(self, number: i64) -> Option<Self> {
        i32::try_from(number).ok()
    }
}

// What is done with each field.
pub trait Visitor {
    fn one<F: Field>(&mut self, field: &mut F);
}

fn each<V: Visitor, F: Field>(visitor: &mut V, fields: &mut [F]) {
    for field in fields.iter_mut() {
        visitor.one(field);
    }
}

fn luma<V: Visitor>(d: &mut VvcAlfLuma, visitor: &mut V) {
    visitor.one(&mut d.alf_luma_clip_flag);
    visitor.one(&mut d.alf_luma_num_filters_signalled_minus1);
    each(visitor, &mut d.alf_luma_coeff_delta_idx);
    each(visitor, &mut d.coeff_abs);
    each(visitor, &mut d.coeff_sign);
    each(visitor, &mut d.clip_idx);
}

fn chroma<V: Visitor>(d: &mut VvcAlfChroma, visitor: &mut V) {
    visitor.one(&mut d.alf_chroma_clip_flag);
    visitor.one(&mut d.alf_chroma_num_alt_filters_minus1);
    each(visitor, &mut d.coeff_abs);
    each(visitor, &mut d.coeff_sign);
    each(visitor, &mut d.clip_idx);
}

fn cross<V: Visitor>(d: &mut VvcAlfCcFilters, visitor: &mut V) {
    visitor.one(&mut d.filters_signalled_minus1);
    each(visitor, &mut d.mapped_coeff_abs);
    each(visitor, &mut d.coeff_sign);
}

fn alf<V: Visitor>(d: &mut VvcAlfData, visitor: &mut V) {
    visitor.one(&mut d.alf_luma_filter_signal_flag);
    visitor.one(&mut d.alf_chroma_filter_signal_flag);
    visitor.one(&mut d.alf_cc_cb_filter_signal_flag);
    visitor.one(&mut d.alf_cc_cr_filter_signal_flag);
    luma(&mut d.luma, visitor);
    chroma(&mut d.chroma, visitor);
    cross(&mut d.cc_cb, visitor);
    cross(&mut d.cc_cr, visitor);
}

fn lmcs<V: Visitor>(d: &mut VvcLmcsData, visitor: &mut V) {
    visitor.one(&mut d.lmcs_min_bin_idx);
    visitor.one(&mut d.lmcs_delta_max_bin_idx);
    visitor.one(&mut d.lmcs_delta_cw_prec_minus1);
    each(visitor, &mut d.lmcs_delta_abs_cw);
    each(visitor, &mut d.lmcs_delta_sign_cw_flag);
    visitor.one(&mut d.lmcs_delta_abs_crs);
    visitor.one(&mut d.lmcs_delta_sign_crs_flag);
}

fn scaling<V: Visitor>(d: &mut VvcScalingListData, visitor: &mut V) {
    each(visitor, &mut d.copy_mode_flag);
    each(visitor, &mut d.pred_mode_flag);
    each(visitor, &mut d.pred_id_delta);
    each(visitor, &mut d.dc_coef);
    each(visitor, &mut d.scaling_list);
}

pub fn visit<V: Visitor>(set: &mut VvcAps, visitor: &mut V) {
    visitor.one(&mut set.kind);
    visitor.one(&mut set.aps_adaptation_parameter_set_id);
    visitor.one(&mut set.aps_chroma_present_flag);
    visitor.one(&mut set.aps_extension_flag);
    match set.kind {
        ApsKind::Alf => alf(&mut set.alf, visitor),
        ApsKind::Lmcs => lmcs(&mut set.lmcs, visitor),
        ApsKind::Scaling => scaling(&mut set.scaling, visitor),
    }
}
