// How every call says no: reasons with fixed numbers, their origins, and their words.
#![tactic(auto)]

pub mod denial;
pub mod words;
