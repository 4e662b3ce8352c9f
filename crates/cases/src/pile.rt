// One pile of two recall layers over a ledger that already holds a recalled entry, worked through the real books.
ghost use Rattle.std.specs.Prelude.{◌≡◌, ◌<◌, [], ◌∷◌};
ghost use Rattle.book.specs.Meaning.{means};
ghost use Rattle.book.specs.Sheet.{sheet_list};
ghost use Rattle.cases.specs.Pile.{asked, WorkedPile};

use book::entry::{Entry, Standing};
use book::filing::Book;
use book::recall::Recall;
use book::register::Register;
use book::sheet::Sheet;
use denials::denial::Denial;
use records::owned::OwnedLedger;

// What a book answers when an entry is looked up, filed and struck, and then another is filed.
#[derive(Clone, Copy)]
pub(crate) struct Answers {
    pub found: Option<Entry>,
    pub filed: Result<(), Denial>,
    pub struck: Result<(), Denial>,
    pub other: Result<(), Denial>,
}

// Puts the four questions to a book.
fn ask<B: Book>(book: &mut B, entry: Entry, other: Entry) -> Answers
    ensures answer { result ≡ asked (means (B.live book.old) (B.barred book.old) (B.free book.old)) entry other }
{
    let found = book.lookup(entry.serial);
    let filed = book.file(entry);
    let struck = book.strike(entry.serial);
    let other = book.file(other);
    Answers {
        found,
        filed,
        struck,
        other,
    }
}

// A sheet with one serial on it.
fn sheet_of(serial: u16) -> Sheet
    requires { 0 < serial }
    ensures list { sheet_list result ≡ serial ∷ [] }
{
    let mut sheet = Sheet::new();
    let _ = sheet.add(serial);
    sheet
}

// Lays sheets with serials 5 and 6 over a ledger that holds serial 5, and asks the pile for 5 and for 7.
pub(crate) fn worked_pile() -> Answers
    ensures answers { WorkedPile result }
{
    let rule = Entry {
        serial: 5,
        standing: Standing::Rule,
        row: 2,
    };
    let other = Entry {
        serial: 7,
        standing: Standing::Rule,
        row: 3,
    };
    let mut ledger = OwnedLedger::new(3);
    let _ = ledger.file(rule);
    let mut pile = Recall::new(sheet_of(5), Recall::new(sheet_of(6), ledger));
    ask(&mut pile, rule, other)
}
