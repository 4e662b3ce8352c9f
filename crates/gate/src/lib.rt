// The gate of one machine: its number, its names and its book, the calls that change them, and checking proofs against them.
#![tactic(auto)]

mod calls;
mod checking;
pub mod gate;
pub mod worked;
