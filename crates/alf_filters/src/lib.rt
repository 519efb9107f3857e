// The filters of an ALF set as they act (H.266 7.4.3.18): signed coefficients and clips by component, and a luma filter as weights.
#![tactic(auto)]

pub mod chroma;
pub mod cross_component;
mod entries;
mod judge;
pub mod luma;
pub mod weights;
