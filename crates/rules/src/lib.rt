// The rules of the tableau: what a branch holds, what the lines of a proof may cite, and what each line does. Whether a line fits is told in the crate `fitting`.
#![tactic(auto)]

pub mod blanks;
pub mod branch;
pub mod line;
pub mod moves;
pub mod rule;
pub mod table;
