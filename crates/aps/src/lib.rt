// Library 2: adaptation parameter sets (H.266 7.3.2.6) read and written, after src/h266/aps.rs of the Rust.
#![tactic(auto)]

pub mod alf;
mod alf_chroma;
mod alf_chroma_write;
mod alf_fields;
mod alf_luma;
mod alf_set;
mod alf_write;
pub mod aps;
mod ending;
mod inferred;
pub mod lmcs;
mod lmcs_set;
mod lmcs_write;
pub mod nal_header;
mod opened;
pub mod payload;
mod reader;
pub mod scaling_list;
mod scaling_list_data;
mod scaling_list_write;
mod scaling_set;
pub mod unit;
pub mod unit_header;
pub mod write;
mod writer;

// The longest RBSP that is read or written.
pub const LONGEST_RBSP: usize = 2048;
