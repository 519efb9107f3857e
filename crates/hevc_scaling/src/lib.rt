// Scaling lists of H.265 (7.3.4), read and written as bare bytes, after src/hevc.rs of the Rust, and the H.266 set with their factors.
#![tactic(auto)]

mod list_reader;
mod list_writer;
mod resolved_list;
pub mod scaling_list;
pub mod scaling_list_data;
pub mod scaling_list_write;
pub mod vvc_scaling_set;
