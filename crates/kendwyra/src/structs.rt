// The sets as C has them: a struct for each kind, the fields by H.266's names in their natural widths, a flag a byte that is 0 or 1, rows one after another.

#[repr(C)]
#[derive(Clone, Copy)]
pub struct ApsAlf {
    pub aps_adaptation_parameter_set_id: u8,
    pub aps_chroma_present_flag: u8,
    pub aps_extension_flag: u8,
    pub alf_luma_filter_signal_flag: u8,
    pub alf_chroma_filter_signal_flag: u8,
    pub alf_cc_cb_filter_signal_flag: u8,
    pub alf_cc_cr_filter_signal_flag: u8,
    pub alf_luma_clip_flag: u8,
    pub alf_luma_num_filters_signalled_minus1: u32,
    pub alf_luma_coeff_delta_idx: [u8; 25],
    pub alf_luma_coeff_abs: [u32; 300],
    pub alf_luma_coeff_sign: [u8; 300],
    pub alf_luma_clip_idx: [u8; 300],
    pub alf_chroma_clip_flag: u8,
    pub alf_chroma_num_alt_filters_minus1: u32,
    pub alf_chroma_coeff_abs: [u32; 48],
    pub alf_chroma_coeff_sign: [u8; 48],
    pub alf_chroma_clip_idx: [u8; 48],
    pub alf_cc_cb_filters_signalled_minus1: u32,
    pub alf_cc_cb_mapped_coeff_abs: [u8; 28],
    pub alf_cc_cb_coeff_sign: [u8; 28],
    pub alf_cc_cr_filters_signalled_minus1: u32,
    pub alf_cc_cr_mapped_coeff_abs: [u8; 28],
    pub alf_cc_cr_coeff_sign: [u8; 28],
}

#[repr(C)]
#[derive(Clone, Copy)]
pub struct ApsLmcs {
    pub aps_adaptation_parameter_set_id: u8,
    pub aps_chroma_present_flag: u8,
    pub aps_extension_flag: u8,
    pub lmcs_min_bin_idx: u32,
    pub lmcs_delta_max_bin_idx: u32,
    pub lmcs_delta_cw_prec_minus1: u32,
    pub lmcs_delta_abs_cw: [u32; 16],
    pub lmcs_delta_sign_cw_flag: [u8; 16],
    pub lmcs_delta_abs_crs: u8,
    pub lmcs_delta_sign_crs_flag: u8,
}

#[repr(C)]
#[derive(Clone, Copy)]
pub struct ApsScaling {
    pub aps_adaptation_parameter_set_id: u8,
    pub aps_chroma_present_flag: u8,
    pub aps_extension_flag: u8,
    pub scaling_list_copy_mode_flag: [u8; 28],
    pub scaling_list_pred_mode_flag: [u8; 28],
    pub scaling_list_pred_id_delta: [u32; 28],
    pub scaling_list_dc_coef: [i32; 14],
    pub scaling_list: [i32; 1792],
}

// Scaling lists of H.265: [sizeId][matrixId], [sizeId - 2][matrixId] and [matrixId][i], rows one after another.
#[repr(C)]
#[derive(Clone, Copy)]
pub struct ApsHevcLists {
    pub pred_mode_flag: [u8; 24],
    pub pred_matrix_id_delta: [u32; 24],
    pub dc_coef_minus8: [i32; 12],
    pub list_4x4: [u8; 96],
    pub list_8x8: [u8; 384],
    pub list_16x16: [u8; 384],
    pub list_32x32: [u8; 384],
}

// What every set has: its kind's number, its id and its two flags.
#[repr(C)]
#[derive(Clone, Copy)]
pub struct ApsHead {
    pub kind: u8,
    pub aps_adaptation_parameter_set_id: u8,
    pub aps_chroma_present_flag: u8,
    pub aps_extension_flag: u8,
}
