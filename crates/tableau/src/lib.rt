// The walk through a proof file: it checks line by line that the rules are kept and every branch closes.
#![tactic(auto)]

pub mod proving;
mod walking;
