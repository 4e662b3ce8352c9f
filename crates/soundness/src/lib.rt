// What it is for a proof to keep the rules, and what is proved of that: a walk passes just what keeps them, and what keeps them follows from the book.
#![tactic(auto)]

pub mod laws;
