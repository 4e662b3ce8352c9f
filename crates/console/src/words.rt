// Answers and refusals in words.
use crate::answer::Answer;
use crate::refusal::{Fault, Refusal};
use book::entry::Entry;
use std::fmt;

impl fmt::Display for Fault {
    fn fmt<W: fmt::Write>(&self, f: &mut fmt::Formatter<W>) -> fmt::Result {
        match self {
            Fault::Line(why) => write!(f, "{why}"),
            Fault::NoGate => f.write_str("no gate is open"),
            Fault::OpenAlready => f.write_str("a gate with this number is open already"),
            Fault::NotOpen => f.write_str("no gate with this number is open"),
            Fault::NinthGate => f.write_str("eight gates are open"),
            Fault::NoMemory => f.write_str("memory ran out"),
        }
    }
}

fn list<W: fmt::Write>(entries: &[Entry], f: &mut fmt::Formatter<W>) -> fmt::Result {
    f.write_str("live")?;
    for &Entry {
        serial,
        standing,
        row,
    } in entries {
        write!(f, " {serial}:{standing}:{row}")?;
    }
    Ok(())
}

impl fmt::Display for Answer {
    fn fmt<W: fmt::Write>(&self, f: &mut fmt::Formatter<W>) -> fmt::Result {
        match self {
            Answer::Opened(gate) => write!(f, "gate {gate} open"),
            Answer::At(gate) => write!(f, "gate {gate}"),
            Answer::Row(row) => write!(f, "row {row}"),
            Answer::Filed => f.write_str("filed"),
            Answer::Struck => f.write_str("struck"),
            Answer::Live(entries) => list(entries, f),
        }
    }
}

impl fmt::Display for Refusal {
    fn fmt<W: fmt::Write>(&self, f: &mut fmt::Formatter<W>) -> fmt::Result {
        match self {
            Refusal::Denied(denial) => write!(f, "{denial}"),
            Refusal::Unreadable(fault) => write!(f, "unreadable ({fault})"),
        }
    }
}
