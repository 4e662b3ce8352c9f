// Opening a gate: filling the sheets of its layers, stocking its lowest book, and laying one over the other.
ghost use Rattle.std.specs.Prelude.{◌≡◌, [], Ok, Err, MatchResult};
ghost use Rattle.book.specs.Sheet.{sheet_list};
ghost use Rattle.job.specs.Books.{listed, held_in, sheets, floor_of};
ghost use Rattle.job.specs.Words.{words};
ghost use Rattle.console.specs.Openings.{filled, both_filled, stocked, opened_by, shelf_means, floor_means};
ghost use Rattle.console.specs.Piles.{pile_state};

use crate::shelf::Shelf;
use book::filing::Book;
use book::recall::Recall;
use book::sheet::Sheet;
use denials::denial::Denial;
use gate::gate::Gate;
use job::{Entries, Ground, Layers, Opening, Serials};
use records::card::CardBook;
use records::owned::OwnedLedger;

// The book of a console's gate. A layer that a job does not ask for has an empty sheet.
pub type Pile = Recall<Recall<Shelf>>;

// A sheet with the serials of the text on it.
fn fill(text: &[u8]) -> Result<Sheet, Denial>
    ensures answer { MatchResult result (λ s. filled [] (listed (words text.now)) ≡ Ok (sheet_list s)) (λ d. filled [] (listed (words text.now)) ≡ Err d) }
{
    let mut sheet = Sheet::new();
    for serial in Serials(text) {
        sheet.add(serial)?;
    }
    Ok(sheet)
}

// The book with the entries of the text filed in it.
fn stock(mut book: Shelf, text: &[u8]) -> Result<Shelf, Denial>
    ensures answer { MatchResult result (λ b. stocked (shelf_means book) (held_in (words text.now)) ≡ Ok (shelf_means b)) (λ d. stocked (shelf_means book) (held_in (words text.now)) ≡ Err d) }
{
    for entry in Entries(text) {
        book.file(entry)?;
    }
    Ok(book)
}

// A new lowest book.
fn lowest(ground: Ground) -> Shelf
    ensures means { shelf_means result ≡ floor_means (floor_of ground) }
{
    match ground {
        Ground::Ledger(records) => Shelf::Ledger(OwnedLedger::new(records as usize)),
        Ground::Card => Shelf::Card(CardBook::new()),
    }
}

// The sheets of the upper and the lower layer.
fn sheets_of(layers: Layers) -> Result<(Sheet, Sheet), Denial>
    ensures answer { MatchResult result (λ p. both_filled (sheets layers.entry) ≡ Ok (sheet_list p.0, sheet_list p.1)) (λ d. both_filled (sheets layers.entry) ≡ Err d) }
{
    match layers {
        Layers::Bare => Ok((Sheet::new(), Sheet::new())),
        Layers::One(upper) => Ok((fill(upper)?, Sheet::new())),
        Layers::Two(upper, lower) => Ok((fill(upper)?, fill(lower)?)),
    }
}

// The gate that an opening asks for, or what a sheet or the book denied.
pub(crate) fn open_gate(opening: Opening) -> Result<Gate<Pile>, Denial>
    ensures answer { MatchResult result (λ g. opened_by opening.entry ≡ Ok (pile_state g)) (λ d. opened_by opening.entry ≡ Err d) }
{
    let (upper, lower) = sheets_of(opening.layers)?;
    let book = stock(lowest(opening.ground), opening.entries)?;
    Ok(Gate::new(opening.gate, Recall::new(upper, Recall::new(lower, book))))
}
