// Principals and statements as rows, and what they mean.
#![tactic(auto)]

pub mod names;
mod naming;
pub mod principals;
mod read;
pub mod row;
pub mod statements;
pub mod structures;
pub mod table;
