// Why a line cannot be read.
use std::error::Error;
use std::fmt;

#[derive(Clone, Copy, Debug)]
pub enum Unreadable {
    UnknownCommand,
    MissingWord,
    ExtraWord,
    BadNumber,
    BadBook,
    BadEntry,
}

impl Error for Unreadable {}

impl fmt::Display for Unreadable {
    fn fmt<W: fmt::Write>(&self, f: &mut fmt::Formatter<W>) -> fmt::Result {
        f.write_str(match self {
            Unreadable::UnknownCommand => "no such command",
            Unreadable::MissingWord => "a word is missing",
            Unreadable::ExtraWord => "there is a word too many",
            Unreadable::BadNumber => "not a number, or too large",
            Unreadable::BadBook => "no such book",
            Unreadable::BadEntry => "not an entry SERIAL:STANDING:ROW",
        })
    }
}
