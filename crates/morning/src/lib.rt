// The built-in task: the morning of one recipe that needs shop and lab together.
#![tactic(auto)]

use book::entry::{BLANK, Entry, Standing};
use book::filing::Book;
use denials::denial::Denial;
use gate::gate::Gate;
use records::ledger::Ledger;
use std::io;

// A row to name, by the numbers that the gate takes, and what it says.
struct Row {
    form: u8,
    x: u16,
    y: u16,
    words: &'static str,
}

const PRINCIPALS: [Row; 4] = [
    Row {
        form: 1,
        x: 0,
        y: 0,
        words: "Shop",
    },
    Row {
        form: 1,
        x: 1,
        y: 0,
        words: "Lab",
    },
    Row {
        form: 2,
        x: 0,
        y: 1,
        words: "Shop & Lab",
    },
    Row {
        form: 3,
        x: 0,
        y: 1,
        words: "Shop quoting Lab",
    },
];

const STATEMENTS: [Row; 10] = [
    Row {
        form: 1,
        x: 0,
        y: 0,
        words: "this recipe may be poured (request 0)",
    },
    Row {
        form: 4,
        x: 2,
        y: 0,
        words: "Shop & Lab says that it may be poured",
    },
    Row {
        form: 2,
        x: 0,
        y: 0,
        words: "it may not be poured",
    },
    Row {
        form: 3,
        x: 1,
        y: 2,
        words: "Shop & Lab says that it may be poured, and it may not",
    },
    Row {
        form: 2,
        x: 3,
        y: 0,
        words: "Shop & Lab controls it: what they say together about it holds",
    },
    Row {
        form: 4,
        x: 0,
        y: 0,
        words: "Shop says that it may be poured",
    },
    Row {
        form: 4,
        x: 1,
        y: 0,
        words: "Lab says that it may be poured",
    },
    Row {
        form: 4,
        x: 0,
        y: 6,
        words: "Shop says that Lab says that it may be poured",
    },
    Row {
        form: 5,
        x: 0,
        y: 0,
        words: "Shop speaks for Shop",
    },
    Row {
        form: 4,
        x: 3,
        y: 0,
        words: "Shop quoting Lab says that it may be poured",
    },
];

// The paint house's rule: what shop and lab say together about the recipe holds.
const RULE: Entry = Entry {
    serial: 1,
    standing: Standing::Rule,
    row: 4,
};

const SHOP_SAYS: Entry = Entry {
    serial: 2,
    standing: Standing::Saying,
    row: 5,
};

const LAB_SAYS: Entry = Entry {
    serial: 3,
    standing: Standing::Saying,
    row: 6,
};

// What the shop says that the lab says.
const LAB_QUOTED: Entry = Entry {
    serial: 4,
    standing: Standing::Saying,
    row: 7,
};

// The row's number behind its words, or why it has none.
fn tell_row(rt: &impl Print, words: &str, answer: Result<u16, Denial>) -> io::Result<()> {
    match answer {
        Ok(row) => println!(rt; "  {row}: {words}."),
        Err(denial) => println!(rt; "  {words}: {denial}."),
    }
}

// What was done, or why it was not. No one function with `tell_row` would be plainer: there the words stand on both sides of the answer.
fn tell_done(rt: &impl Print, done: &str, answer: Result<(), Denial>) -> io::Result<()> {
    match answer {
        Ok(()) => println!(rt; "{done}."),
        Err(denial) => println!(rt; "{denial}."),
    }
}

// Names all rows of the morning.
fn name_rows<B: Book>(rt: &impl Print, gate: &mut Gate<B>) -> anyhow::Result<()> {
    println!(rt; "It names who takes part, the principals:")?;
    for row in &PRINCIPALS {
        tell_row(rt, row.words, gate.principal(row.form, row.x, row.y))?;
    }
    println!(rt; "and what can be said, the statements:")?;
    for row in &STATEMENTS {
        tell_row(rt, row.words, gate.statement(row.form, row.x, row.y))?;
    }
    Ok(())
}

// Files an entry and tells what came of it.
fn file<B: Book>(rt: &impl Print, gate: &mut Gate<B>, entry: Entry) -> io::Result<()> {
    let Entry {
        serial,
        standing,
        row,
    } = entry;
    print!(rt; "  statement {row} under serial {serial}: ")?;
    tell_done(rt, "filed", gate.file(serial, standing as u8, row))
}

// Strikes a serial and tells what came of it.
fn strike<B: Book>(rt: &impl Print, gate: &mut Gate<B>, serial: u16) -> io::Result<()> {
    print!(rt; "  serial {serial}: ")?;
    tell_done(rt, "struck", gate.strike(serial))
}

// An entry of the book in words.
fn tell_entry(rt: &impl Print, entry: Entry) -> io::Result<()> {
    let Entry {
        serial,
        standing,
        row,
    } = entry;
    println!(rt; "  serial {serial}: statement {row}, a {standing}.")
}

// Tells what is live, from entry to entry in rising serial order.
fn show_book<B: Book>(rt: &impl Print, gate: &Gate<B>) -> anyhow::Result<()> {
    println!(rt; "The book now holds:")?;
    for entry in gate.entries() {
        tell_entry(rt, entry)?;
    }
    Ok(())
}

// The rule and the two sayings are filed, a fourth finds no place, and one is struck to make room.
fn keep_the_book<B: Book>(rt: &impl Print, gate: &mut Gate<B>) -> anyhow::Result<()> {
    println!(rt; "The paint house files its rule, and shop and lab file what they say.")?;
    file(rt, gate, RULE)?;
    file(rt, gate, SHOP_SAYS)?;
    file(rt, gate, LAB_SAYS)?;
    println!(rt; "The ledger's three records are used. A fourth entry finds no place.")?;
    file(rt, gate, LAB_QUOTED)?;
    show_book(rt, gate)?;
    println!(rt; "The lab takes its saying back, which makes room.")?;
    strike(rt, gate, LAB_SAYS.serial)?;
    file(rt, gate, LAB_QUOTED)?;
    show_book(rt, gate)
}

// Tells the whole task, from an empty ledger of three records on.
pub fn tell(rt: &impl Print) -> anyhow::Result<()> {
    println!(rt; "The morning of one recipe that needs shop and lab together.")?;
    let mut records = [BLANK; 3];
    let mut gate = Gate::new(7, Ledger::new(&mut records));
    let number = gate.number();
    println!(rt; "Gate {number} opens with an empty ledger of three records.")?;
    name_rows(rt, &mut gate)?;
    keep_the_book(rt, &mut gate)
}
