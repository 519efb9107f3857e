// Library 3: the table of the sets in force, units and streams taken into it, and the list at a cut.
#![tactic(auto)]

pub mod held_set;
pub mod list;
pub mod marks;
pub mod places;
mod split;
pub mod table;
mod unit_end;
