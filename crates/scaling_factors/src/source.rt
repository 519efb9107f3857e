// What an id of a set is predicted from, and whether its entries count.
ghost use Rattle.std.specs.Prelude.{◌≡◌};
ghost use Rattle.scaling_factors.specs.Factors.{copied, refers, delta};
ghost use Rattle.scaling_factors.specs.Inner.{predicted_from};

use aps::scaling_list::{ListId, VvcScalingListData};

// What the factors and DC of an id are predicted from: one value, or those of the id so many before it.
#[derive(Clone, Copy)]
pub(crate) enum Prediction {
    Value(u8),
    Earlier(usize),
}

// The list of an id is copied; an id that is not coded is.
pub(crate) fn copied(d: &VvcScalingListData, chroma: bool, id: ListId) -> bool
    ensures { result ≡ copied chroma d.now id.number }
{
    !id.scaling_id_coded(chroma) || d.copy_mode_flag[id.number]
}

// It is copied or predicted.
#[tactic(auto, unfolding(crate::specs::Factors::refers))]
fn refers(d: &VvcScalingListData, chroma: bool, id: ListId) -> bool
    ensures { result ≡ refers chroma d.now id.number }
{
    copied(d, chroma, id) || d.pred_mode_flag[id.number]
}

// How many ids earlier the one is that it refers to; 0 where that is not sent.
#[tactic(auto, unfolding(crate::specs::Factors::delta))]
fn delta(d: &VvcScalingListData, chroma: bool, id: ListId) -> usize
    ensures { result ≡ delta chroma d.now id.number }
{
    if id.scaling_id_coded(chroma) && id.delta_sent(refers(d, chroma, id)) {
        return d.pred_id_delta[id.number] as usize;
    }
    0
}

// Neither copied nor predicted: 8; at a delta of 0: 16.
#[tactic(auto, unfolding(crate::specs::Inner::predicted_from))]
pub(crate) fn predicted_from(d: &VvcScalingListData, chroma: bool, id: ListId) -> Prediction
    ensures { result ≡ predicted_from chroma d.now id.number }
{
    if !refers(d, chroma, id) {
        return Prediction::Value(8);
    }
    match delta(d, chroma, id) {
        0 => Prediction::Value(16),
        delta => Prediction::Earlier(delta),
    }
}
