// One kind of trail for every kind of entry that has a blank: entries are added at the end of a lent table, read by number and cut back to a length.
#![tactic(auto)]

pub mod blank;
mod calls;
mod places;
pub mod trail;
