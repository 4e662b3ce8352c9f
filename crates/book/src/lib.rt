// What a book of rules and sayings means, the calls that every book has, and the layer that recalls serials.
#![tactic(auto)]

pub mod entries;
pub mod entry;
pub mod filing;
pub mod laws;
pub mod recall;
pub mod register;
pub mod sheet;
