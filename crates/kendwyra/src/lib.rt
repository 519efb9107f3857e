// What C and Rust link: sets by C's structs, the table and the list at a cut, escapes, and single fields. Each call gives 0 with the answer in what is lent, or a refusal's number with all as it was.
#![tactic(auto)]

mod alf;
pub mod bytes;
mod calls;
pub mod curve;
pub mod factors;
pub mod fields;
pub mod filters;
mod flags;
pub mod heads;
pub mod hevc;
pub mod kinds;
mod lmcs;
pub mod marks;
mod meanings;
mod scaling;
mod set;
pub mod sets;
pub mod structs;
pub mod table;
