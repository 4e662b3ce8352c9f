// The state of a walk, and what one line of a proof makes of it: whether it finds its places, and what it does to the branch and its forks.
#![tactic(auto)]

mod adding;
mod moving;
pub mod stepping;
pub mod tableau;
