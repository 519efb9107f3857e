// The scaling factors of a set of scaling lists (H.266 7.4.3.20), by C's struct of the set: matrices by row and column, and DCs.
ghost use Rattle.std.specs.Prelude.{◌≡◌};
ghost use Rattle.scaling_factors.specs.Answers.{matrix_of, dc_of};
ghost use Rattle.kendwyra.specs.Codes.{result_code, result_left, flagged};
ghost use Rattle.kendwyra.specs.Structs.{scaling_flags, scaling_in};

use crate::meanings::{put, set_of};
use crate::structs::ApsScaling;
use scaling_factors::{dc, matrix2, matrix4, matrix8};

// The matrix of id 8 to 27. 2, and 2 for another id; 9.
#[tactic(auto, unfolding(crate::specs::Codes::result_code, crate::specs::Codes::result_left, crate::specs::Codes::flagged))]
#[unsafe(no_mangle)]
pub extern "C" fn aps_scaling_matrix8(set: &ApsScaling, id: u32, matrix: &mut [[u8; 8]; 8]) -> u32
    ensures code { result ≡ result_code (flagged (scaling_flags set.now) (matrix_of 8 (scaling_in set.now) id)) }
    ensures matrix { matrix.new ≡ result_left (flagged (scaling_flags set.now) (matrix_of 8 (scaling_in set.now) id)) matrix.old }
{
    match set_of(set) {
        Ok(lists) => put(matrix8(&lists, id as usize), matrix),
        Err(why) => why.into(),
    }
}

// The matrix of id 2 to 7.
#[tactic(auto, unfolding(crate::specs::Codes::result_code, crate::specs::Codes::result_left, crate::specs::Codes::flagged))]
#[unsafe(no_mangle)]
pub extern "C" fn aps_scaling_matrix4(set: &ApsScaling, id: u32, matrix: &mut [[u8; 4]; 4]) -> u32
    ensures code { result ≡ result_code (flagged (scaling_flags set.now) (matrix_of 4 (scaling_in set.now) id)) }
    ensures matrix { matrix.new ≡ result_left (flagged (scaling_flags set.now) (matrix_of 4 (scaling_in set.now) id)) matrix.old }
{
    match set_of(set) {
        Ok(lists) => put(matrix4(&lists, id as usize), matrix),
        Err(why) => why.into(),
    }
}

// The matrix of id 0 or 1.
#[tactic(auto, unfolding(crate::specs::Codes::result_code, crate::specs::Codes::result_left, crate::specs::Codes::flagged))]
#[unsafe(no_mangle)]
pub extern "C" fn aps_scaling_matrix2(set: &ApsScaling, id: u32, matrix: &mut [[u8; 2]; 2]) -> u32
    ensures code { result ≡ result_code (flagged (scaling_flags set.now) (matrix_of 2 (scaling_in set.now) id)) }
    ensures matrix { matrix.new ≡ result_left (flagged (scaling_flags set.now) (matrix_of 2 (scaling_in set.now) id)) matrix.old }
{
    match set_of(set) {
        Ok(lists) => put(matrix2(&lists, id as usize), matrix),
        Err(why) => why.into(),
    }
}

// The DC of id 14 to 27. 2, and 2 for another id; 9.
#[tactic(auto, unfolding(crate::specs::Codes::result_code, crate::specs::Codes::result_left, crate::specs::Codes::flagged))]
#[unsafe(no_mangle)]
pub extern "C" fn aps_scaling_dc(set: &ApsScaling, id: u32, value: &mut u8) -> u32
    ensures code { result ≡ result_code (flagged (scaling_flags set.now) (dc_of (scaling_in set.now) id)) }
    ensures value { value.new ≡ result_left (flagged (scaling_flags set.now) (dc_of (scaling_in set.now) id)) value.old }
{
    match set_of(set) {
        Ok(lists) => put(dc(&lists, id as usize), value),
        Err(why) => why.into(),
    }
}
