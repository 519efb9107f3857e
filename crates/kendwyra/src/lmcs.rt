// An LMCS set as C has it.
ghost use Rattle.kendwyra.specs.Structs.{lmcs_struct, lmcs_flags, lmcs_in};

use crate::flags::{are_flags, flags_of, put_flags};
use crate::set::Struct;
use crate::structs::ApsLmcs;
use aps::lmcs::VvcLmcsData;
use aps::payload::ApsOf;

impl Struct<VvcLmcsData> for ApsLmcs {
    ghost of = { lmcs_struct };

    ghost flags = { lmcs_flags };

    ghost meaning = { lmcs_in };

    ghost id = { λ s. s.aps_adaptation_parameter_set_id };

    ghost chroma = { λ s. s.aps_chroma_present_flag };

    ghost extension = { λ s. s.aps_extension_flag };

    fn id(&self) -> u8 {
        self.aps_adaptation_parameter_set_id
    }

    fn chroma(&self) -> u8 {
        self.aps_chroma_present_flag
    }

    fn extension(&self) -> u8 {
        self.aps_extension_flag
    }

    #[tactic(auto, unfolding(crate::specs::Structs::lmcs_struct))]
    fn put(&mut self, set: &ApsOf<VvcLmcsData>) {
        let head = set.head;
        let d = &set.payload;
        self.aps_adaptation_parameter_set_id = head.aps_adaptation_parameter_set_id;
        self.aps_chroma_present_flag = u8::from(head.aps_chroma_present_flag);
        self.aps_extension_flag = u8::from(head.aps_extension_flag);
        self.lmcs_min_bin_idx = d.lmcs_min_bin_idx;
        self.lmcs_delta_max_bin_idx = d.lmcs_delta_max_bin_idx;
        self.lmcs_delta_cw_prec_minus1 = d.lmcs_delta_cw_prec_minus1;
        self.lmcs_delta_abs_cw.copy_from_slice(&d.lmcs_delta_abs_cw);
        put_flags(
            &d.lmcs_delta_sign_cw_flag,
            &mut self.lmcs_delta_sign_cw_flag,
        );
        self.lmcs_delta_abs_crs = d.lmcs_delta_abs_crs;
        self.lmcs_delta_sign_crs_flag = u8::from(d.lmcs_delta_sign_crs_flag);
    }

    #[tactic(auto, unfolding(crate::specs::Structs::lmcs_flags, crate::specs::Structs::lmcs_in, crate::specs::Structs::lmcs_data))]
    fn payload(&self) -> Option<VvcLmcsData> {
        let flags = self.aps_chroma_present_flag <= 1
            && self.aps_extension_flag <= 1
            && self.lmcs_delta_sign_crs_flag <= 1
            && are_flags(&self.lmcs_delta_sign_cw_flag);
        if !flags {
            return None;
        }
        let lmcs_delta_abs_cw = self.lmcs_delta_abs_cw;
        Some(VvcLmcsData {
            lmcs_min_bin_idx: self.lmcs_min_bin_idx,
            lmcs_delta_max_bin_idx: self.lmcs_delta_max_bin_idx,
            lmcs_delta_cw_prec_minus1: self.lmcs_delta_cw_prec_minus1,
            lmcs_delta_abs_cw,
            lmcs_delta_sign_cw_flag: flags_of(&self.lmcs_delta_sign_cw_flag),
            lmcs_delta_abs_crs: self.lmcs_delta_abs_crs,
            lmcs_delta_sign_crs_flag: self.lmcs_delta_sign_crs_flag == 1,
        })
    }
}
