// Scaling lists of H.265 (7.3.4) by C's struct of them, and the H.266 set that stands for them.
ghost use Rattle.std.specs.Prelude.{◌≡◌, true, false, IfOk, IfErr};
ghost use Rattle.bitstream.specs.Outcome.{left, map_outcome};
ghost use Rattle.bitstream.specs.declared.Refusal.TheVariants.{InvalidData};
ghost use Rattle.aps.specs.Writing.{whole_scaling};
ghost use Rattle.hevc_scaling.specs.Converted.{vvc_scaling_set};
ghost use Rattle.hevc_scaling.specs.ListData.{parse_scaling_list_data, write_scaling_list_data};
ghost use Rattle.kendwyra.specs.Codes.{code, value_left, place_left, flags_first, result_code, result_left, made_into};
ghost use Rattle.kendwyra.specs.Structs.{hevc_struct, hevc_flags, hevc_in, scaling_struct};

use crate::calls::sized;
use crate::flags::{are_flags, flags_of, put_flags};
use crate::set::Struct;
use crate::structs::{ApsHevcLists, ApsScaling};
use bitstream::Refusal;
use hevc_scaling::scaling_list::HevcScalingListData;
use hevc_scaling::scaling_list_data::parse_scaling_list_data;
use hevc_scaling::scaling_list_write::write_scaling_list_data;
use hevc_scaling::vvc_scaling_set::vvc_scaling_set;

// C's struct of the lists.
#[tactic(auto, unfolding(crate::specs::Structs::hevc_struct))]
fn put_lists(from: &HevcScalingListData, lists: &mut ApsHevcLists)
    ensures { lists.new ≡ hevc_struct from.now }
{
    put_flags(&from.pred_mode_flag, &mut lists.pred_mode_flag);
    lists
        .pred_matrix_id_delta
        .copy_from_slice(&from.pred_matrix_id_delta);
    lists.dc_coef_minus8.copy_from_slice(&from.dc_coef_minus8);
    lists.list_4x4.copy_from_slice(&from.list_4x4);
    lists.list_8x8.copy_from_slice(&from.list_8x8);
    lists.list_16x16.copy_from_slice(&from.list_16x16);
    lists.list_32x32.copy_from_slice(&from.list_32x32);
}

// The lists of a struct. 2: a flag is neither 0 nor 1.
#[tactic(auto, unfolding(crate::specs::Structs::hevc_flags, crate::specs::Structs::hevc_in))]
fn lists_of(lists: &ApsHevcLists) -> Result<HevcScalingListData, Refusal>
    ensures ok { IfOk result (λ d. (hevc_flags lists.now ≡ true) × (d ≡ hevc_in lists.now)) }
    ensures err { IfErr result (λ why. (hevc_flags lists.now ≡ false) × (why ≡ InvalidData)) }
{
    if !are_flags(&lists.pred_mode_flag) {
        return Err(Refusal::InvalidData);
    }
    let pred_matrix_id_delta = lists.pred_matrix_id_delta;
    let dc_coef_minus8 = lists.dc_coef_minus8;
    let list_4x4 = lists.list_4x4;
    let list_8x8 = lists.list_8x8;
    let list_16x16 = lists.list_16x16;
    let list_32x32 = lists.list_32x32;
    Ok(HevcScalingListData {
        pred_mode_flag: flags_of(&lists.pred_mode_flag),
        pred_matrix_id_delta,
        dc_coef_minus8,
        list_4x4,
        list_8x8,
        list_16x16,
        list_32x32,
    })
}

// The lists of bare bytes, and the bit where reading ended.
#[tactic(auto, unfolding(crate::specs::Codes::code, crate::specs::Codes::value_left, crate::specs::Codes::place_left))]
#[unsafe(no_mangle)]
pub extern "C" fn aps_hevc_parse(bytes: &[u8], lists: &mut ApsHevcLists, end: &mut [u64; 1]) -> u32
    ensures code { result ≡ code (parse_scaling_list_data bytes.now) }
    ensures lists { lists.new ≡ value_left (map_outcome hevc_struct (parse_scaling_list_data bytes.now)) lists.old }
    ensures end { end.new ≡ place_left (parse_scaling_list_data bytes.now) end.old }
{
    match parse_scaling_list_data(bytes) {
        Ok(reading) => {
            put_lists(&reading.value, lists);
            end[0] = reading.end as u64;
            0
        }
        Err(why) => why.into(),
    }
}

// Lists as bare bytes at the start of out, and their length.
#[tactic(auto, unfolding(crate::specs::Codes::code, crate::specs::Codes::place_left, crate::specs::Codes::flags_first))]
#[unsafe(no_mangle)]
pub extern "C" fn aps_hevc_write(lists: &ApsHevcLists, out: &mut [u8], len: &mut [u64; 1]) -> u32
    ensures code { result ≡ code (flags_first (hevc_flags lists.now) (write_scaling_list_data (hevc_in lists.now) out.old)) }
    ensures out { out.new ≡ left out.old (flags_first (hevc_flags lists.now) (write_scaling_list_data (hevc_in lists.now) out.old)) }
    ensures len { len.new ≡ place_left (flags_first (hevc_flags lists.now) (write_scaling_list_data (hevc_in lists.now) out.old)) len.old }
{
    match lists_of(lists) {
        Ok(d) => sized(write_scaling_list_data(&d, out), len),
        Err(why) => why.into(),
    }
}

// The H.266 set of the lists of bare bytes. Those of reading; 13.
#[tactic(auto, unfolding(crate::specs::Codes::result_code, crate::specs::Codes::result_left, crate::specs::Codes::made_into))]
#[unsafe(no_mangle)]
pub extern "C" fn aps_hevc_scaling_set(bytes: &[u8], set: &mut ApsScaling) -> u32
    ensures code { result ≡ result_code (vvc_scaling_set bytes.now) }
    ensures set { set.new ≡ result_left (made_into (λ s. scaling_struct (whole_scaling s)) (vvc_scaling_set bytes.now)) set.old }
{
    match vvc_scaling_set(bytes) {
        Ok(lists) => {
            set.put(&lists);
            0
        }
        Err(why) => why.into(),
    }
}
