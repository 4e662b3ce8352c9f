// The recall layer: over any book, it bars the serials on a sheet and hides their entries.
ghost use Rattle.std.specs.Prelude.{◌≡◌, refl};
ghost use Rattle.std.proofs.Common.{◌∙◌};
ghost use Rattle.book.specs.Sheet.{sheet_list};
ghost use Rattle.book.specs.Recall.{recalled_live, recalled_barred, recalled_orderly};

use crate::entries::Entries;
use crate::entry::Entry;
use crate::filing::Book;
use crate::register::Register;
use crate::sheet::Sheet;
use denials::denial::{Denial, Reason};

// Nothing changes the sheet once the layer is made.
#[derive(Clone, Copy, Drop)]
pub struct Recall<B> {
    sheet: Sheet,
    below: B,
}

impl<B> Recall<B> {
    pub fn new(sheet: Sheet, below: B) -> Recall<B>
        ensures sheet { result.sheet ≡ sheet }
        ensures below { result.below ≡ below }
    {
        Recall { sheet, below }
    }
}

impl<B: Register> Register for Recall<B> {
    ghost live = { λ b. recalled_live (sheet_list b.sheet) (B.live b.below) };

    ghost orderly = { λ b. recalled_orderly (sheet_list b.sheet) (B.live b.below) (B.orderly b.below) };

    fn lookup(&self, serial: u16) -> Option<Entry> {
        if self.sheet.contains(serial) {
            return None;
        }
        self.below.lookup(serial)
    }

    fn next_after(&self, serial: u16) -> Option<Entry> {
        let mut entries = Entries::new(&self.below, serial);
        entries.find(|entry| !self.sheet.contains(entry.serial))
    }
}

impl<B: Book> Book for Recall<B> {
    ghost barred = { λ b. recalled_barred (sheet_list b.sheet) (B.barred b.below) };

    ghost free = { λ b. B.free b.below };

    ghost behind = { λ a b. (b.sheet ≡ a.sheet) × B.behind a.below b.below };

    ghost still = { λ b. (refl, B.still b.below) };

    ghost onward = { λ a b c p q. (q.0 ∙ p.0, B.onward a.below b.below c.below p.1 q.1) };

    // A recalled serial is barred here, whatever the book below would say.
    fn file(&mut self, entry: Entry) -> Result<(), Denial> {
        if self.sheet.contains(entry.serial) {
            return Err(Reason::SerialBarred.at(entry.serial as u64));
        }
        self.below.file(entry)
    }

    fn strike(&mut self, serial: u16) -> Result<(), Denial> {
        if self.sheet.contains(serial) {
            return Err(Reason::NotLive.at(serial as u64));
        }
        self.below.strike(serial)
    }
}
