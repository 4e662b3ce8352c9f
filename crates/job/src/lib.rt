// Reads the lines of a job: cuts a job into lines and a line into words, and reads a line as a command. Nothing is allocated.
#![tactic(auto)]

mod command;
mod keyword;
mod limits;
mod lines;
mod lists;
mod numbers;
mod opening;
mod operands;
mod reading;
mod unreadable;
mod words;

pub use command::{Command, Deed, Ground, Layers, Naming, Opening};
pub use lines::{Lines, next_line};
pub use lists::{Entries, Serials, next_entry, next_serial};
pub use reading::read_line;
pub use unreadable::Unreadable;
