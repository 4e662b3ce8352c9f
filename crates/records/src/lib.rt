// Books that keep their entries in records: the ledger over a lent table, the ledger with its table inside, and the card book.
#![tactic(auto)]

pub mod card;
pub mod ledger;
pub mod owned;
mod records;
mod table;
