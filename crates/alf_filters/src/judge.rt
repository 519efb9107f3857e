// What every call refuses, in its order.
ghost use Rattle.std.specs.Prelude.{◌≡◌};
ghost use Rattle.bitstream.specs.Outcome.{number, numbered};
ghost use Rattle.aps.specs.Writing.{whole_alf};
ghost use Rattle.alf_filters.specs.Answers.{asked, is_depth};

use aps::alf::VvcAlfData;
use aps::payload::{ApsOf, Payload};
use bitstream::Refusal;

// A bit depth of 8 to 12.
#[tactic(auto, unfolding(crate::specs::Answers::is_depth))]
pub(crate) fn is_depth(depth: u32) -> bool
    ensures { result ≡ is_depth depth }
{
    8 <= depth && depth <= 12
}

// 2: the set is of another kind or not writable; the refusal for an argument that is not allowed; 8: the component was not sent.
pub(crate) fn judge(
    set: &ApsOf<VvcAlfData>,
    allowed: bool,
    otherwise: Refusal,
    sent: bool,
) -> Result<(), Refusal>
    ensures { numbered result ≡ asked (whole_alf set.now) allowed (number otherwise) sent tt }
{
    if !VvcAlfData::is_writable(set) {
        return Err(Refusal::InvalidData);
    }
    if !allowed {
        return Err(otherwise);
    }
    if !sent {
        return Err(Refusal::NotSent);
    }
    Ok(())
}
