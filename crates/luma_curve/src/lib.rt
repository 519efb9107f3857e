// The luma curve of an LMCS set at a bit depth, H.266 7.4.3.19: its tables, each division with the exact remainder, and where it maps samples to.
#![tactic(auto)]

mod bins;
pub mod curve;
pub mod map;
mod org_cw;
