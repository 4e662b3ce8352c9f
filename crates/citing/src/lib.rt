// What the lines of a proof cite: facts, links, worlds, rows and live entries, and what a line then does.
#![tactic(auto)]

pub mod branch;
pub mod citing;
pub mod given;
