// The ledger: a book over a slice of records that it is lent, with its entries from the front in rising serial order.
ghost use Rattle.std.specs.Prelude.{◌≡◌, false};
ghost use Rattle.book.specs.Meaning.{means, empty_book};
ghost use Rattle.records.specs.Ledger.{ledger_size, LedgerSound, ledger_live, ledger_free, ledger_orderly, BlankFront, SameBehind, behind_still, behind_onward};

use crate::table::{look_up, next_up, put_in, take_out};
use book::entry::{BLANK, Entry};
use book::filing::Book;
use book::register::Register;
use denials::denial::Denial;

// A ledger uses no more than this many of the records that it is lent.
pub const LEDGER_SIZE: usize = 1024;

// A slice with a count, and no Vec: the records are lent, and those that are not in use are blank.
#[derive(Drop)]
pub struct Ledger<'a> {
    count: usize,
    records: &'a mut [Entry],
    pub ghost sound: { LedgerSound records.now count },
}

impl<'a> Ledger<'a> {
    // An empty ledger. It blanks the records that it uses, whatever they held, and leaves those behind them alone.
    pub fn new(records: &'a mut [Entry]) -> Ledger<'a>
        ensures empty { means (ledger_live result.records.now result.count) (λ s. false) (ledger_free result.records.now result.count) ≡ empty_book (λ s. false) (ledger_size records.old) }
        ensures blank { BlankFront result.records.now }
        ensures behind { SameBehind records.entry result.records }
    {
        let size = records.len().min(LEDGER_SIZE);
        records[..size].fill(BLANK);
        Ledger { count: 0, records }
    }

    // How many of the records are used.
    fn size(&self) -> usize
        ensures { result ≡ ledger_size self.now.records.now }
    {
        self.records.len().min(LEDGER_SIZE)
    }
}

impl<'a> Register for Ledger<'a> {
    ghost live = { λ b. ledger_live b.records.now b.count };

    ghost orderly = { λ b. ledger_orderly b.records.now b.count b.sound };

    fn lookup(&self, serial: u16) -> Option<Entry> {
        look_up(&self.records[..self.count], serial)
    }

    fn next_after(&self, serial: u16) -> Option<Entry> {
        next_up(&self.records[..self.count], serial)
    }
}

impl<'a> Book for Ledger<'a> {
    ghost barred = { λ b s. false };

    ghost free = { λ b. ledger_free b.records.now b.count };

    ghost behind = { λ a b. SameBehind a.records b.records };

    ghost still = { λ b. behind_still b.records };

    ghost onward = { λ a b c. behind_onward a.records b.records c.records };

    fn file(&mut self, entry: Entry) -> Result<(), Denial> {
        let size = self.size();
        put_in(self.records, &mut self.count, size, entry)
    }

    fn strike(&mut self, serial: u16) -> Result<(), Denial> {
        let size = self.size();
        take_out(self.records, &mut self.count, size, serial)
    }
}
