// A recall sheet: at most 64 serials, filled before it is laid over a book.
ghost use Rattle.std.specs.Prelude.{◌≡◌, []};
ghost use Rattle.book.specs.Serials.{on, SheetSound};

use denials::denial::{Denial, Reason};

// A sheet has room for this many serials.
pub const SHEET_SIZE: usize = 64;

// A fixed array with a count, and no Vec: the gate has no heap, and a layer over a book is Copy.
#[derive(Clone, Copy)]
pub struct Sheet {
    count: usize,
    serials: [u16; SHEET_SIZE],
    pub ghost sound: { SheetSound serials count },
}

impl Sheet {
    ghost use Rattle.book.specs.Sheet.{sheet_list, sheet_add_answer, sheet_add_after};

    // A sheet with no serial on it.
    pub fn new() -> Sheet
        ensures empty { sheet_list result ≡ [] }
    {
        Sheet {
            count: 0,
            serials: [0; SHEET_SIZE],
        }
    }

    // Whether a serial is on the sheet.
    pub(crate) fn contains(&self, serial: u16) -> bool
        ensures answer { result ≡ on (sheet_list self.now) serial }
    {
        self.serials[..self.count].contains(&serial)
    }

    // Puts a serial on the sheet. One that is on it already is accepted, on a full sheet too.
    pub fn add(&mut self, serial: u16) -> Result<(), Denial>
        ensures answer { result ≡ sheet_add_answer (sheet_list self.old) serial }
        ensures after { sheet_list self.new ≡ sheet_add_after (sheet_list self.old) serial }
    {
        if serial == 0 {
            return Err(Reason::SerialZero.at(0));
        }
        if self.contains(serial) {
            return Ok(());
        }
        if self.count == SHEET_SIZE {
            return Err(Reason::SheetFull.at(0));
        }
        self.serials[self.count] = serial;
        self.count += 1;
        Ok(())
    }
}
