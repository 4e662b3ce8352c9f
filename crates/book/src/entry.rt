// What a book keeps: a statement row under a serial, held as a rule or as a saying.
use denials::denial::{Denial, Reason};
use std::fmt;

// How an entry is held. A variant's value is the standing's number.
#[derive(Clone, Copy)]
pub enum Standing {
    Rule = 1,
    Saying = 2,
}

impl TryFrom<u8> for Standing {
    ghost use Rattle.book.specs.Standing.{StandingNumbered};

    type Error = Denial;

    ghost try_from_gives = { StandingNumbered };

    fn try_from(number: u8) -> Result<Standing, Denial> {
        match number {
            1 => Ok(Standing::Rule),
            2 => Ok(Standing::Saying),
            _ => Err(Reason::UnknownStanding.at(0)),
        }
    }
}

impl fmt::Display for Standing {
    fn fmt<W: fmt::Write>(&self, f: &mut fmt::Formatter<W>) -> fmt::Result {
        f.write_str(match self {
            Standing::Rule => "rule",
            Standing::Saying => "saying",
        })
    }
}

// An entry of a book. A serial of 0 is nobody's: it marks a blank record.
#[derive(Clone, Copy)]
pub struct Entry {
    pub serial: u16,
    pub standing: Standing,
    pub row: u16,
}

// The record of an unused place. Records are entries and no Options: that is how they are lent to a ledger.
pub const BLANK: Entry = Entry {
    serial: 0,
    standing: Standing::Rule,
    row: 0,
};
