// Denials in words.
use crate::denial::{Denial, Origin, Reason};
use std::fmt;

impl fmt::Display for Reason {
    fn fmt<W: fmt::Write>(&self, f: &mut fmt::Formatter<W>) -> fmt::Result {
        f.write_str(match self {
            Reason::UnknownForm => "the form is unknown",
            Reason::BadOperand =>
                "an operand is out of range, names no row, or is not 0 though unused",
            Reason::TableFull => "the row is new and its table is full",
            Reason::UnknownStanding => "the standing is neither 1 (rule) nor 2 (saying)",
            Reason::RowNotNamed => "the statement row is not named",
            Reason::SerialZero => "serial 0 is no serial",
            Reason::SerialBarred => "the serial is barred",
            Reason::SerialLive => "the serial is live already",
            Reason::NoFreePlace => "the book has no free place",
            Reason::SlipOpen => "a slip is open",
            Reason::NotLive => "the serial is not live",
            Reason::EightSlipsOpen => "eight slips are open",
            Reason::NumbersSpent => "all 65,535 slips were issued",
            Reason::NoMark => "the file has under ten bytes or lacks the mark PMT",
            Reason::WrongVersion => "the file's version is not 1",
            Reason::WrongKind => "the file is of a kind that this call does not take",
            Reason::RequestNotNamed => "the request's row is not named",
            Reason::CountOutOfRange => "the file's count is out of range",
            Reason::WrongLength => "the file is not as long as its head says",
            Reason::AlreadyComplete => "the proof is complete before this line",
            Reason::UnknownCode => "the code is unknown, or an unused operand is not 0",
            Reason::NoSuchOperand => "an operand names no fact, link, world or principal row",
            Reason::NoLiveEntry => "there is no such live rule or saying, or its row is not named",
            Reason::NeedsDoNotFit => "the line's needs do not fit",
            Reason::NoPlace => "a table or the worlds lack a place",
            Reason::BranchOpen => "a branch is open at the end",
            Reason::TooManyAtoms => "the structure lists too many principals or requests",
            Reason::NoSuchWorld => "a bit stands for a world that is not there",
            Reason::WorkTableShort => "the work table has under 4,352 numbers",
            Reason::EntryNotNamed => "the row of a live entry is not named",
            Reason::EntryFails => "a rule fails at some world or a saying at the start",
            Reason::RequestHolds => "the request holds at the start",
            Reason::NoSuchSlip => "the gate has no such open slip",
            Reason::SheetFull => "64 other serials are on the sheet",
        })
    }
}

impl fmt::Display for Origin {
    fn fmt<W: fmt::Write>(&self, f: &mut fmt::Formatter<W>) -> fmt::Result {
        f.write_str(match self {
            Origin::Gate => "gate",
            Origin::Book => "book",
            Origin::File => "file",
            Origin::Line => "line",
        })
    }
}

// The number, the place and the origin, and then the reason in words.
impl fmt::Display for Denial {
    fn fmt<W: fmt::Write>(&self, f: &mut fmt::Formatter<W>) -> fmt::Result {
        let Denial { reason, place } = *self;
        let number = reason.number();
        let origin = reason.origin();
        write!(
            f,
            "denied {number} place {place} origin {origin} ({reason})"
        )
    }
}
