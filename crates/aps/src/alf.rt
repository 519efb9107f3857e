// alf_data(), H.266 7.3.2.18.
ghost use Rattle.std.specs.Prelude.{◌≡◌};
ghost use Rattle.aps.specs.AlfSyntax.{to_luma, no_luma, to_chroma, no_chroma, to_cc, no_cc, alf, alf_filters};
ghost use Rattle.aps.specs.ApsSyntax.{zero_alf};
ghost use Rattle.aps.specs.Reads.{Reads, filled};

use crate::alf_chroma::{read_cc, read_chroma};
use crate::alf_luma::read_luma;
use crate::reader::Reader;
use bitstream::Refusal;

// Luma filters: row r of the flat arrays is at 12 * r. In this order of fields there is no gap to copy. Arrays beside one another here and below, as the Rust's fields are.
#[derive(Clone, Copy)]
pub struct VvcAlfLuma {
    pub alf_luma_num_filters_signalled_minus1: u32,
    pub coeff_abs: [u32; 300],
    pub alf_luma_clip_flag: bool,
    pub alf_luma_coeff_delta_idx: [u8; 25],
    pub coeff_sign: [bool; 300],
    pub clip_idx: [u8; 300],
}

// Chroma alternatives: row r of the flat arrays is at 6 * r.
#[derive(Clone, Copy)]
pub struct VvcAlfChroma {
    pub alf_chroma_clip_flag: bool,
    pub alf_chroma_num_alt_filters_minus1: u32,
    pub coeff_abs: [u32; 48],
    pub coeff_sign: [bool; 48],
    pub clip_idx: [u8; 48],
}

// Cross-component filters of Cb or Cr: row r of the flat arrays is at 7 * r.
#[derive(Clone, Copy)]
pub struct VvcAlfCcFilters {
    pub filters_signalled_minus1: u32,
    pub mapped_coeff_abs: [u8; 28],
    pub coeff_sign: [bool; 28],
}

#[derive(Clone, Copy)]
pub struct VvcAlfData {
    pub alf_luma_filter_signal_flag: bool,
    pub alf_chroma_filter_signal_flag: bool,
    pub alf_cc_cb_filter_signal_flag: bool,
    pub alf_cc_cr_filter_signal_flag: bool,
    pub luma: VvcAlfLuma,
    pub chroma: VvcAlfChroma,
    pub cc_cb: VvcAlfCcFilters,
    pub cc_cr: VvcAlfCcFilters,
}

// What is inferred where nothing is sent. Written out, the law is the description's record; derived, it would be one for each entry.
impl Default for VvcAlfLuma {
    ghost is_default = { λ d. d ≡ to_luma no_luma.default };

    fn default() -> Self {
        VvcAlfLuma {
            alf_luma_clip_flag: false,
            alf_luma_num_filters_signalled_minus1: 0,
            alf_luma_coeff_delta_idx: [0; 25],
            coeff_abs: [0; 300],
            coeff_sign: [false; 300],
            clip_idx: [0; 300],
        }
    }
}

impl Default for VvcAlfChroma {
    ghost is_default = { λ d. d ≡ to_chroma no_chroma.default };

    fn default() -> Self {
        VvcAlfChroma {
            alf_chroma_clip_flag: false,
            alf_chroma_num_alt_filters_minus1: 0,
            coeff_abs: [0; 48],
            coeff_sign: [false; 48],
            clip_idx: [0; 48],
        }
    }
}

impl Default for VvcAlfCcFilters {
    ghost is_default = { λ d. d ≡ to_cc no_cc.default };

    fn default() -> Self {
        VvcAlfCcFilters {
            filters_signalled_minus1: 0,
            mapped_coeff_abs: [0; 28],
            coeff_sign: [false; 28],
        }
    }
}

impl Default for VvcAlfData {
    ghost is_default = { λ d. d ≡ zero_alf };

    fn default() -> Self {
        VvcAlfData {
            alf_luma_filter_signal_flag: false,
            alf_chroma_filter_signal_flag: false,
            alf_cc_cb_filter_signal_flag: false,
            alf_cc_cr_filter_signal_flag: false,
            luma: VvcAlfLuma::default(),
            chroma: VvcAlfChroma::default(),
            cc_cb: VvcAlfCcFilters::default(),
            cc_cr: VvcAlfCcFilters::default(),
        }
    }
}

// What the four flags announce.
fn read_alf_filters(reader: &mut Reader, d: &mut VvcAlfData) -> Result<(), Refusal>
    requires { (d.old.luma ≡ to_luma no_luma.default) × (d.old.chroma ≡ to_chroma no_chroma.default)
        × (d.old.cc_cb ≡ to_cc no_cc.default) × (d.old.cc_cr ≡ to_cc no_cc.default) }
    ensures filters { Reads (alf_filters
        d.old.alf_luma_filter_signal_flag d.old.alf_chroma_filter_signal_flag
        d.old.alf_cc_cb_filter_signal_flag d.old.alf_cc_cr_filter_signal_flag)
        (filled result (d.new.luma, (d.new.chroma, (d.new.cc_cb, d.new.cc_cr))) reader.new.at) reader.old reader.new }
    ensures flags { (d.new.alf_luma_filter_signal_flag ≡ d.old.alf_luma_filter_signal_flag)
        × (d.new.alf_chroma_filter_signal_flag ≡ d.old.alf_chroma_filter_signal_flag)
        × (d.new.alf_cc_cb_filter_signal_flag ≡ d.old.alf_cc_cb_filter_signal_flag)
        × (d.new.alf_cc_cr_filter_signal_flag ≡ d.old.alf_cc_cr_filter_signal_flag) }
{
    let luma = d.alf_luma_filter_signal_flag;
    let chroma = d.alf_chroma_filter_signal_flag;
    let cb = d.alf_cc_cb_filter_signal_flag;
    let cr = d.alf_cc_cr_filter_signal_flag;
    read_luma(reader, luma, &mut d.luma)?;
    read_chroma(reader, chroma, &mut d.chroma)?;
    read_cc(reader, cb, &mut d.cc_cb)?;
    read_cc(reader, cr, &mut d.cc_cr)?;
    Ok(())
}

// alf_data(), of which the chroma flag is a parameter in H.266.
pub(crate) fn parse_alf_data(
    reader: &mut Reader,
    chroma: bool,
    d: &mut VvcAlfData,
) -> Result<(), Refusal>
    requires { d.old ≡ zero_alf }
    ensures { Reads (alf chroma) (filled result d.new reader.new.at) reader.old reader.new }
{
    d.alf_luma_filter_signal_flag = reader.flag()?;
    d.alf_chroma_filter_signal_flag = reader.flag_if(chroma)?;
    d.alf_cc_cb_filter_signal_flag = reader.flag_if(chroma)?;
    d.alf_cc_cr_filter_signal_flag = reader.flag_if(chroma)?;
    read_alf_filters(reader, d)?;
    Ok(())
}
