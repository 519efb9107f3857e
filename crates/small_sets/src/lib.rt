// The RBSPs of two and of three bytes that are accepted with extension flag 0 and read to their last byte, and their lines.
#![tactic(auto)]

pub mod lines;
