// Scaling factors built from a scaling set, H.266 7.4.3.20.
#![tactic(auto)]

mod lists;
mod matrix;
mod source;

ghost use Rattle.std.specs.Prelude.{◌≡◌, ◌-◌, ◌<◌, true, false, Bool, IfOk, IfErr};
ghost use Rattle.bitstream.specs.declared.Refusal.TheVariants.{InvalidData};
ghost use Rattle.aps.specs.declared.scaling_list.VvcScalingListData.{VvcScalingListData};
ghost use Rattle.bitstream.specs.Outcome.{numbered};
ghost use Rattle.aps.specs.Writing.{whole_scaling};
ghost use Rattle.scaling_factors.specs.Factors.{any_zero};
ghost use Rattle.scaling_factors.specs.Answers.{has_matrix, has_dc, built, factors_of, matrix_in, dc_in, matrix_of, dc_of};
ghost use Rattle.scaling_factors.specs.Inner.{Scans};

use crate::lists::{dcs, has_zero_factor, lists};
use crate::matrix::rows;
use aps::payload::{ApsOf, Payload};
use aps::scaling_list::{ListId, VvcScalingListData};
use bitstream::Refusal;

// The factors of id are at 64 * id, in the order of the scan, and 0 past the matrix; the DC of id is at id - 14.
#[derive(Clone, Copy)]
pub struct ScalingFactors {
    pub factors: [u8; 1792],
    pub dcs: [u8; 14],
}

// The list of an id whose matrix is of this size.
#[tactic(auto, unfolding(crate::specs::Answers::has_matrix))]
fn sized(number: usize, size: usize) -> Result<ListId, Refusal>
    ensures ok { IfOk result (λ id. (id.number ≡ number) × (has_matrix size number ≡ true)) }
    ensures err { IfErr result (λ why. (why ≡ InvalidData) × (has_matrix size number ≡ false)) }
{
    if 27 < number {
        return Err(Refusal::InvalidData);
    }
    let id = ListId { number };
    if id.matrix_size() != size {
        return Err(Refusal::InvalidData);
    }
    Ok(id)
}

// Where the DC of an id stands.
#[tactic(auto, unfolding(crate::specs::Answers::has_dc))]
fn dc_place(id: usize) -> Result<usize, Refusal>
    ensures ok { IfOk result (λ place. (place ≡ id - 14) × (place < 14) × (has_dc id ≡ true)) }
    ensures err { IfErr result (λ why. (why ≡ InvalidData) × (has_dc id ≡ false)) }
{
    if id < 14 || 27 < id {
        return Err(Refusal::InvalidData);
    }
    Ok(id - 14)
}

impl ScalingFactors {
    // A factor or a DC is 0.
    fn has_zero(&self) -> bool
        ensures { (chroma : Bool) (d : VvcScalingListData) → self.now ≡ built chroma d → result ≡ any_zero chroma d }
    {
        has_zero_factor(&self.factors) || self.dcs.contains(&0)
    }

    // The matrix of an id whose size it is. 2: another id
    fn matrix<const N: usize>(&self, id: usize) -> Result<[[u8; N]; N], Refusal>
        requires { Scans N }
        ensures { numbered result ≡ matrix_in N self.now id }
    {
        let start = 64 * sized(id, N)?.number;
        Ok(rows(&self.factors[start..start + N * N]))
    }

    // The matrix of id 8 to 27. 2: another id
    #[tactic(auto, using(crate::proofs::ScanLaws::scans8))]
    pub fn matrix8(&self, id: usize) -> Result<[[u8; 8]; 8], Refusal>
        ensures { numbered result ≡ matrix_in 8 self.now id }
    {
        self.matrix(id)
    }

    // The matrix of id 2 to 7. 2: another id
    #[tactic(auto, using(crate::proofs::ScanLaws::scans4))]
    pub fn matrix4(&self, id: usize) -> Result<[[u8; 4]; 4], Refusal>
        ensures { numbered result ≡ matrix_in 4 self.now id }
    {
        self.matrix(id)
    }

    // The matrix of id 0 or 1. 2: another id
    #[tactic(auto, using(crate::proofs::ScanLaws::scans2))]
    pub fn matrix2(&self, id: usize) -> Result<[[u8; 2]; 2], Refusal>
        ensures { numbered result ≡ matrix_in 2 self.now id }
    {
        self.matrix(id)
    }

    // The DC of id 14 to 27. 2: another id
    #[tactic(auto, unfolding(crate::specs::Answers::dc_in))]
    pub fn dc(&self, id: usize) -> Result<u8, Refusal>
        ensures { numbered result ≡ dc_in self.now id }
    {
        Ok(self.dcs[dc_place(id)?])
    }
}

// All factors and DCs of a set. 2: it is of another kind, or the writer would refuse it with 2 were its extension flag 0; 9: a factor or a DC is 0
pub fn scaling_factors(set: &ApsOf<VvcScalingListData>) -> Result<ScalingFactors, Refusal>
    ensures { numbered result ≡ factors_of (whole_scaling set.now) }
{
    if !VvcScalingListData::is_writable(set) {
        return Err(Refusal::InvalidData);
    }
    let chroma = set.head.aps_chroma_present_flag;
    let factors = lists(&set.payload, chroma);
    let dcs = dcs(&set.payload, chroma, &factors);
    let built = ScalingFactors { factors, dcs };
    if built.has_zero() {
        return Err(Refusal::ZeroFactor);
    }
    Ok(built)
}

// The matrix of an id whose size it is, of a set.
fn matrix_of<const N: usize>(
    set: &ApsOf<VvcScalingListData>,
    id: usize,
) -> Result<[[u8; N]; N], Refusal>
    requires { Scans N }
    ensures { numbered result ≡ matrix_of N (whole_scaling set.now) id }
{
    // Before anything is built.
    sized(id, N)?;
    scaling_factors(set)?.matrix(id)
}

// The matrix of id 8 to 27 of a set. 2: as `scaling_factors`, or another id; 9
#[tactic(auto, using(crate::proofs::ScanLaws::scans8))]
pub fn matrix8(set: &ApsOf<VvcScalingListData>, id: usize) -> Result<[[u8; 8]; 8], Refusal>
    ensures { numbered result ≡ matrix_of 8 (whole_scaling set.now) id }
{
    matrix_of(set, id)
}

// The matrix of id 2 to 7 of a set. 2, 9: likewise
#[tactic(auto, using(crate::proofs::ScanLaws::scans4))]
pub fn matrix4(set: &ApsOf<VvcScalingListData>, id: usize) -> Result<[[u8; 4]; 4], Refusal>
    ensures { numbered result ≡ matrix_of 4 (whole_scaling set.now) id }
{
    matrix_of(set, id)
}

// The matrix of id 0 or 1 of a set. 2, 9: likewise
#[tactic(auto, using(crate::proofs::ScanLaws::scans2))]
pub fn matrix2(set: &ApsOf<VvcScalingListData>, id: usize) -> Result<[[u8; 2]; 2], Refusal>
    ensures { numbered result ≡ matrix_of 2 (whole_scaling set.now) id }
{
    matrix_of(set, id)
}

// The DC of id 14 to 27 of a set. 2, 9: likewise
pub fn dc(set: &ApsOf<VvcScalingListData>, id: usize) -> Result<u8, Refusal>
    ensures { numbered result ≡ dc_of (whole_scaling set.now) id }
{
    // Before anything is built.
    dc_place(id)?;
    scaling_factors(set)?.dc(id)
}
