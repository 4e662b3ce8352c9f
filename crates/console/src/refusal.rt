// Why a line was not done.
ghost use Rattle.std.specs.Prelude.{◌≡◌};
ghost use Rattle.console.specs.declared.refusal.Fault.TheVariants.{Line, NoMemory};
ghost use Rattle.console.specs.declared.refusal.Refusal.TheVariants.{Denied, Unreadable as Unread};

use denials::denial::Denial;
use job::Unreadable;
use std::alloc::{AllocError, AllocFailed};
use std::error::Error;

// Why a line has no effect though it is not denied.
#[derive(Clone, Copy, Debug)]
pub enum Fault {
    Line(Unreadable),
    NoGate,
    OpenAlready,
    NotOpen,
    NinthGate,
    NoMemory,
}

// What a book or a gate denied, or why the line came to neither.
#[derive(Clone, Copy, Debug)]
pub enum Refusal {
    Denied(Denial),
    Unreadable(Fault),
}

impl Error for Refusal {}

impl From<Denial> for Refusal {
    ghost from_gives = { λ d r. r ≡ Denied d };

    fn from(denial: Denial) -> Refusal {
        Refusal::Denied(denial)
    }
}

impl From<Fault> for Refusal {
    ghost from_gives = { λ f r. r ≡ Unread f };

    fn from(fault: Fault) -> Refusal {
        Refusal::Unreadable(fault)
    }
}

impl From<Unreadable> for Refusal {
    ghost from_gives = { λ u r. r ≡ Unread (Line u) };

    fn from(why: Unreadable) -> Refusal {
        Refusal::Unreadable(Fault::Line(why))
    }
}

impl From<AllocError> for Refusal {
    ghost from_gives = { λ _ r. r ≡ Unread NoMemory };

    fn from(_: AllocError) -> Refusal {
        Refusal::Unreadable(Fault::NoMemory)
    }
}

impl<T: Drop> From<AllocFailed<T>> for Refusal {
    ghost from_gives = { λ _ r. r ≡ Unread NoMemory };

    fn from(failed: AllocFailed<T>) -> Refusal {
        Refusal::from(AllocError::from(failed))
    }
}
