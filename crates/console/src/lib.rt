// The console: does the commands of a job at its gates and words the answers.
#![tactic(auto)]

pub mod answer;
pub mod console;
mod deed;
mod lines;
mod listing;
mod opening;
pub mod refusal;
pub mod shelf;
pub mod words;
