// An ALF set as C has it.
ghost use Rattle.std.specs.Prelude.{◌≡◌};
ghost use Rattle.kendwyra.specs.Structs.{alf_struct, alf_flags, alf_in, luma_data, chroma_data, cc_data};

use crate::flags::{are_flags, flags_of, put_flags};
use crate::set::Struct;
use crate::structs::ApsAlf;
use aps::alf::{VvcAlfCcFilters, VvcAlfChroma, VvcAlfData, VvcAlfLuma};
use aps::payload::ApsOf;

impl Struct<VvcAlfData> for ApsAlf {
    ghost of = { alf_struct };

    ghost flags = { alf_flags };

    ghost meaning = { alf_in };

    ghost id = { λ s. s.aps_adaptation_parameter_set_id };

    ghost chroma = { λ s. s.aps_chroma_present_flag };

    ghost extension = { λ s. s.aps_extension_flag };

    fn id(&self) -> u8 {
        self.aps_adaptation_parameter_set_id
    }

    fn chroma(&self) -> u8 {
        self.aps_chroma_present_flag
    }

    fn extension(&self) -> u8 {
        self.aps_extension_flag
    }

    // Inlined, the record is known to lie apart from the struct, and its arrays need no memmove.
    #[inline(always)]
    #[tactic(auto, unfolding(crate::specs::Structs::alf_struct))]
    fn put(&mut self, set: &ApsOf<VvcAlfData>) {
        let head = set.head;
        let d = &set.payload;
        self.aps_adaptation_parameter_set_id = head.aps_adaptation_parameter_set_id;
        self.aps_chroma_present_flag = u8::from(head.aps_chroma_present_flag);
        self.aps_extension_flag = u8::from(head.aps_extension_flag);
        self.alf_luma_filter_signal_flag = u8::from(d.alf_luma_filter_signal_flag);
        self.alf_chroma_filter_signal_flag = u8::from(d.alf_chroma_filter_signal_flag);
        self.alf_cc_cb_filter_signal_flag = u8::from(d.alf_cc_cb_filter_signal_flag);
        self.alf_cc_cr_filter_signal_flag = u8::from(d.alf_cc_cr_filter_signal_flag);
        let luma = &d.luma;
        self.alf_luma_clip_flag = u8::from(luma.alf_luma_clip_flag);
        self.alf_luma_num_filters_signalled_minus1 = luma.alf_luma_num_filters_signalled_minus1;
        self.alf_luma_coeff_delta_idx
            .copy_from_slice(&luma.alf_luma_coeff_delta_idx);
        self.alf_luma_coeff_abs.copy_from_slice(&luma.coeff_abs);
        put_flags(&luma.coeff_sign, &mut self.alf_luma_coeff_sign);
        self.alf_luma_clip_idx.copy_from_slice(&luma.clip_idx);
        let chroma = &d.chroma;
        self.alf_chroma_clip_flag = u8::from(chroma.alf_chroma_clip_flag);
        self.alf_chroma_num_alt_filters_minus1 = chroma.alf_chroma_num_alt_filters_minus1;
        self.alf_chroma_coeff_abs.copy_from_slice(&chroma.coeff_abs);
        put_flags(&chroma.coeff_sign, &mut self.alf_chroma_coeff_sign);
        self.alf_chroma_clip_idx.copy_from_slice(&chroma.clip_idx);
        self.alf_cc_cb_filters_signalled_minus1 = d.cc_cb.filters_signalled_minus1;
        self.alf_cc_cb_mapped_coeff_abs
            .copy_from_slice(&d.cc_cb.mapped_coeff_abs);
        put_flags(&d.cc_cb.coeff_sign, &mut self.alf_cc_cb_coeff_sign);
        self.alf_cc_cr_filters_signalled_minus1 = d.cc_cr.filters_signalled_minus1;
        self.alf_cc_cr_mapped_coeff_abs
            .copy_from_slice(&d.cc_cr.mapped_coeff_abs);
        put_flags(&d.cc_cr.coeff_sign, &mut self.alf_cc_cr_coeff_sign);
    }

    #[tactic(auto, unfolding(crate::specs::Structs::alf_flags, crate::specs::Structs::alf_in, crate::specs::Structs::alf_data))]
    fn payload(&self) -> Option<VvcAlfData> {
        let flags = self.aps_chroma_present_flag <= 1
            && self.aps_extension_flag <= 1
            && self.alf_luma_filter_signal_flag <= 1
            && self.alf_chroma_filter_signal_flag <= 1
            && self.alf_cc_cb_filter_signal_flag <= 1
            && self.alf_cc_cr_filter_signal_flag <= 1
            && self.alf_luma_clip_flag <= 1
            && self.alf_chroma_clip_flag <= 1
            && are_flags(&self.alf_luma_coeff_sign)
            && are_flags(&self.alf_chroma_coeff_sign)
            && are_flags(&self.alf_cc_cb_coeff_sign)
            && are_flags(&self.alf_cc_cr_coeff_sign);
        if !flags {
            return None;
        }
        Some(VvcAlfData {
            alf_luma_filter_signal_flag: self.alf_luma_filter_signal_flag == 1,
            alf_chroma_filter_signal_flag: self.alf_chroma_filter_signal_flag == 1,
            alf_cc_cb_filter_signal_flag: self.alf_cc_cb_filter_signal_flag == 1,
            alf_cc_cr_filter_signal_flag: self.alf_cc_cr_filter_signal_flag == 1,
            luma: luma_of(self),
            chroma: chroma_of(self),
            cc_cb: cc_of(
                self.alf_cc_cb_filters_signalled_minus1,
                &self.alf_cc_cb_mapped_coeff_abs,
                &self.alf_cc_cb_coeff_sign,
            ),
            cc_cr: cc_of(
                self.alf_cc_cr_filters_signalled_minus1,
                &self.alf_cc_cr_mapped_coeff_abs,
                &self.alf_cc_cr_coeff_sign,
            ),
        })
    }
}

fn luma_of(s: &ApsAlf) -> VvcAlfLuma
    ensures { result ≡ luma_data s.now }
{
    let coeff_abs = s.alf_luma_coeff_abs;
    let alf_luma_coeff_delta_idx = s.alf_luma_coeff_delta_idx;
    let clip_idx = s.alf_luma_clip_idx;
    VvcAlfLuma {
        alf_luma_num_filters_signalled_minus1: s.alf_luma_num_filters_signalled_minus1,
        coeff_abs,
        alf_luma_clip_flag: s.alf_luma_clip_flag == 1,
        alf_luma_coeff_delta_idx,
        coeff_sign: flags_of(&s.alf_luma_coeff_sign),
        clip_idx,
    }
}

fn chroma_of(s: &ApsAlf) -> VvcAlfChroma
    ensures { result ≡ chroma_data s.now }
{
    let coeff_abs = s.alf_chroma_coeff_abs;
    let clip_idx = s.alf_chroma_clip_idx;
    VvcAlfChroma {
        alf_chroma_clip_flag: s.alf_chroma_clip_flag == 1,
        alf_chroma_num_alt_filters_minus1: s.alf_chroma_num_alt_filters_minus1,
        coeff_abs,
        coeff_sign: flags_of(&s.alf_chroma_coeff_sign),
        clip_idx,
    }
}

fn cc_of(count_minus1: u32, abs: &[u8; 28], sign: &[u8; 28]) -> VvcAlfCcFilters
    ensures { result ≡ cc_data count_minus1 abs.now sign.now }
{
    let mapped_coeff_abs = *abs;
    VvcAlfCcFilters {
        filters_signalled_minus1: count_minus1,
        mapped_coeff_abs,
        coeff_sign: flags_of(sign),
    }
}
