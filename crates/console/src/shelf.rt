// The lowest book of a console's gate: a ledger with its records inside, or a card book.
ghost use Rattle.console.specs.Shelves.{shelf_live, shelf_orderly, shelf_barred, shelf_free};

use book::entry::Entry;
use book::filing::Book;
use book::register::Register;
use denials::denial::Denial;
use records::card::CardBook;
use records::owned::OwnedLedger;

// An enum that hands each call on, and no boxed trait: the kinds are two, and a gate has no heap.
#[derive(Clone, Copy)]
pub enum Shelf {
    Ledger(OwnedLedger),
    Card(CardBook),
}

impl Register for Shelf {
    ghost live = { shelf_live };

    ghost orderly = { shelf_orderly };

    fn lookup(&self, serial: u16) -> Option<Entry> {
        match self {
            Shelf::Ledger(ledger) => ledger.lookup(serial),
            Shelf::Card(cards) => cards.lookup(serial),
        }
    }

    fn next_after(&self, serial: u16) -> Option<Entry> {
        match self {
            Shelf::Ledger(ledger) => ledger.next_after(serial),
            Shelf::Card(cards) => cards.next_after(serial),
        }
    }
}

impl Book for Shelf {
    ghost barred = { shelf_barred };

    ghost free = { shelf_free };

    ghost behind = { λ a b. Unit {0} };

    ghost still = { λ b. tt };

    ghost onward = { λ a b c p q. tt };

    fn file(&mut self, entry: Entry) -> Result<(), Denial> {
        match self {
            Shelf::Ledger(ledger) => ledger.file(entry),
            Shelf::Card(cards) => cards.file(entry),
        }
    }

    fn strike(&mut self, serial: u16) -> Result<(), Denial> {
        match self {
            Shelf::Ledger(ledger) => ledger.strike(serial),
            Shelf::Card(cards) => cards.strike(serial),
        }
    }
}
