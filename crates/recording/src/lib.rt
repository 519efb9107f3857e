// A whole recording in the byte stream form, fed in pieces of any length into the table of sets.
#![tactic(auto)]

mod collected;
pub mod recording;
mod scan;
