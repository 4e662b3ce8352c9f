// The head that every file begins with, read in four steps: mark, version and kind; the request's row; the count; the length.
#![tactic(auto)]

pub mod head;
pub mod reading;
