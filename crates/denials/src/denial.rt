// How a call says no: a reason with a fixed number, a place, and the part of the machine that it comes from.
ghost use Rattle.std.specs.Prelude.{◌≡◌, map};
ghost use Rattle.denials.specs.Denials.{number, origin, reasons, count_up, denied};

use std::error::Error;

// Every reason for which a call of the gate can be denied. A variant's value is the reason's number.
// `Debug` is what an error needs; nothing compares reasons, origins or denials, so none of them derives `PartialEq`.
#[derive(Clone, Copy, Debug)]
pub enum Reason {
    UnknownForm = 1,
    BadOperand = 2,
    TableFull = 3,
    UnknownStanding = 4,
    RowNotNamed = 5,
    SerialZero = 6,
    SerialBarred = 7,
    SerialLive = 8,
    NoFreePlace = 9,
    SlipOpen = 10,
    NotLive = 11,
    EightSlipsOpen = 12,
    NumbersSpent = 13,
    NoMark = 14,
    WrongVersion = 15,
    WrongKind = 16,
    RequestNotNamed = 17,
    CountOutOfRange = 18,
    WrongLength = 19,
    AlreadyComplete = 20,
    UnknownCode = 21,
    NoSuchOperand = 22,
    NoLiveEntry = 23,
    NeedsDoNotFit = 24,
    NoPlace = 25,
    BranchOpen = 26,
    TooManyAtoms = 27,
    NoSuchWorld = 28,
    WorkTableShort = 29,
    EntryNotNamed = 30,
    EntryFails = 31,
    RequestHolds = 32,
    NoSuchSlip = 33,
    SheetFull = 34,
}

// The part of the machine that a denial comes from.
#[derive(Clone, Copy)]
pub enum Origin {
    Gate,
    Book,
    File,
    Line,
}

// A denial: why, and at which place (a serial, a byte, a line or a row; 0 where no place is stated).
#[derive(Clone, Copy, Debug)]
pub struct Denial {
    pub reason: Reason,
    pub place: u64,
}

impl Error for Denial {}

impl Reason {
    // The reason's number, 1 to 34. `u8::from` would be no plainer: this method is the only cast, and its clause is on all reasons.
    pub fn number(self) -> u8
        ensures answer { result ≡ number self }
        ensures numbered { map number reasons ≡ count_up 1 34 }
    {
        self as u8
    }

    // Where the reason comes from. What the other parts do not say, the gate itself says.
    pub fn origin(self) -> Origin
        ensures answer { result ≡ origin self }
    {
        match self {
            Reason::SerialZero
            | Reason::SerialBarred
            | Reason::SerialLive
            | Reason::NoFreePlace
            | Reason::NotLive
            | Reason::EntryNotNamed
            | Reason::EntryFails
            | Reason::SheetFull => Origin::Book,
            Reason::NoMark
            | Reason::WrongVersion
            | Reason::WrongKind
            | Reason::RequestNotNamed
            | Reason::CountOutOfRange
            | Reason::WrongLength
            | Reason::TooManyAtoms
            | Reason::NoSuchWorld => Origin::File,
            Reason::AlreadyComplete
            | Reason::UnknownCode
            | Reason::NoSuchOperand
            | Reason::NoLiveEntry
            | Reason::NeedsDoNotFit
            | Reason::NoPlace
            | Reason::BranchOpen => Origin::Line,
            _ => Origin::Gate,
        }
    }

    // The denial for this reason at a place.
    pub fn at(self, place: u64) -> Denial
        ensures answer { result ≡ denied (number self) place }
    {
        Denial {
            reason: self,
            place,
        }
    }
}
