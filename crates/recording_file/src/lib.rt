// The sets in force at a place of a recording's file, for the programs that are asked with a file and an offset.
#![tactic(auto)]

pub mod asked;
pub mod table_at;
