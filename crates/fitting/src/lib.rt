// Whether what a line of a proof cites fits its rule.
#![tactic(auto)]

pub mod fitting;
