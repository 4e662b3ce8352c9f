// The card book: a record of its own for each serial from 1 to 256; higher serials are barred.
ghost use Rattle.std.specs.Prelude.{◌≡◌};
ghost use Rattle.book.specs.Meaning.{means, empty_book};
ghost use Rattle.records.specs.Card.{card_live, card_barred, card_free, CardSound, card_orderly};

use book::entry::{BLANK, Entry};
use book::filing::Book;
use book::register::Register;
use denials::denial::{Denial, Reason};

// The highest serial of a card book.
pub const LAST_CARD: u16 = 256;

// A fixed table of entry records, blank where no entry is, and no map: the gate has no heap, and a record is the same in every book.
#[derive(Clone, Copy)]
pub struct CardBook {
    cards: [Entry; 256],
    pub ghost sound: { CardSound cards },
}

impl CardBook {
    // A card book with every record blank.
    pub fn new() -> CardBook
        ensures empty { means (card_live result.cards) card_barred (card_free result.cards) ≡ empty_book card_barred 256 }
    {
        CardBook {
            cards: [BLANK; 256],
        }
    }
}

impl Register for CardBook {
    ghost live = { λ b. card_live b.cards };

    ghost orderly = { λ b. card_orderly b.cards b.sound };

    fn lookup(&self, serial: u16) -> Option<Entry> {
        let place = (serial as usize).checked_sub(1)?;
        let card = *self.cards.get(place)?;
        (card.serial == serial).then_some(card)
    }

    fn next_after(&self, serial: u16) -> Option<Entry> {
        let mut later = self.cards.iter().skip(serial as usize);
        later.find(|card| card.serial != 0).copied()
    }
}

impl Book for CardBook {
    ghost barred = { λ b. card_barred };

    ghost free = { λ b. card_free b.cards };

    ghost behind = { λ a b. Unit {0} };

    ghost still = { λ b. tt };

    ghost onward = { λ a b c p q. tt };

    fn file(&mut self, entry: Entry) -> Result<(), Denial> {
        if entry.serial == 0 {
            return Err(Reason::SerialZero.at(0));
        }
        if entry.serial > LAST_CARD {
            return Err(Reason::SerialBarred.at(entry.serial as u64));
        }
        let at = entry.serial as usize - 1;
        if self.cards[at].serial != 0 {
            return Err(Reason::SerialLive.at(entry.serial as u64));
        }
        self.cards[at] = entry;
        Ok(())
    }

    fn strike(&mut self, serial: u16) -> Result<(), Denial> {
        if self.lookup(serial).is_none() {
            return Err(Reason::NotLive.at(serial as u64));
        }
        self.cards[serial as usize - 1] = BLANK;
        Ok(())
    }
}
