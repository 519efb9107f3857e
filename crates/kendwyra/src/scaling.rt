// A scaling set as C has it.
ghost use Rattle.kendwyra.specs.Structs.{scaling_struct, scaling_flags, scaling_in};

use crate::flags::{are_flags, flags_of, put_flags};
use crate::set::Struct;
use crate::structs::ApsScaling;
use aps::payload::ApsOf;
use aps::scaling_list::VvcScalingListData;

impl Struct<VvcScalingListData> for ApsScaling {
    ghost of = { scaling_struct };

    ghost flags = { scaling_flags };

    ghost meaning = { scaling_in };

    ghost id = { λ s. s.aps_adaptation_parameter_set_id };

    ghost chroma = { λ s. s.aps_chroma_present_flag };

    ghost extension = { λ s. s.aps_extension_flag };

    fn id(&self) -> u8 {
        self.aps_adaptation_parameter_set_id
    }

    fn chroma(&self) -> u8 {
        self.aps_chroma_present_flag
    }

    fn extension(&self) -> u8 {
        self.aps_extension_flag
    }

    // Inlined, the record is known to lie apart from the struct, and its arrays need no memmove.
    #[inline(always)]
    #[tactic(auto, unfolding(crate::specs::Structs::scaling_struct))]
    fn put(&mut self, set: &ApsOf<VvcScalingListData>) {
        let head = set.head;
        let d = &set.payload;
        self.aps_adaptation_parameter_set_id = head.aps_adaptation_parameter_set_id;
        self.aps_chroma_present_flag = u8::from(head.aps_chroma_present_flag);
        self.aps_extension_flag = u8::from(head.aps_extension_flag);
        put_flags(&d.copy_mode_flag, &mut self.scaling_list_copy_mode_flag);
        put_flags(&d.pred_mode_flag, &mut self.scaling_list_pred_mode_flag);
        self.scaling_list_pred_id_delta
            .copy_from_slice(&d.pred_id_delta);
        self.scaling_list_dc_coef.copy_from_slice(&d.dc_coef);
        self.scaling_list.copy_from_slice(&d.scaling_list);
    }

    #[tactic(auto, unfolding(crate::specs::Structs::scaling_flags, crate::specs::Structs::scaling_in, crate::specs::Structs::scaling_data))]
    fn payload(&self) -> Option<VvcScalingListData> {
        let flags = self.aps_chroma_present_flag <= 1
            && self.aps_extension_flag <= 1
            && are_flags(&self.scaling_list_copy_mode_flag)
            && are_flags(&self.scaling_list_pred_mode_flag);
        if !flags {
            return None;
        }
        let pred_id_delta = self.scaling_list_pred_id_delta;
        let dc_coef = self.scaling_list_dc_coef;
        let scaling_list = self.scaling_list;
        Some(VvcScalingListData {
            copy_mode_flag: flags_of(&self.scaling_list_copy_mode_flag),
            pred_mode_flag: flags_of(&self.scaling_list_pred_mode_flag),
            pred_id_delta,
            dc_coef,
            scaling_list,
        })
    }
}
