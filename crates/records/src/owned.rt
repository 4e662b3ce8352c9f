// The owned ledger: the ledger's book with its records inside, for containers that cannot hold a lent slice.
ghost use Rattle.std.specs.Prelude.{◌≡◌, ◌-◌, min, false};
ghost use Rattle.book.specs.Meaning.{means, empty_book};
ghost use Rattle.records.specs.Records.{held};
ghost use Rattle.records.specs.Orderly.{kept_orderly};
ghost use Rattle.records.specs.Owned.{OwnedSound, OwnedBehind, owned_still, owned_onward};

use crate::ledger::LEDGER_SIZE;
use crate::table::{look_up, next_up, put_in, take_out};
use book::entry::{BLANK, Entry};
use book::filing::Book;
use book::register::Register;
use denials::denial::Denial;

// An array with a count, and no Vec: a gate has no heap, and what it copies is Copy.
// A type beside the lent ledger, and not one over a trait of storage: that trait and its two impls, with reading, both shifts and what stays, are longer than the calls here.
#[derive(Clone, Copy)]
pub struct OwnedLedger {
    size: usize,
    count: usize,
    records: [Entry; LEDGER_SIZE],
    pub ghost sound: { OwnedSound records size count },
}

impl OwnedLedger {
    // An empty ledger of `size` records, or of 1,024 if that is fewer.
    pub fn new(size: usize) -> OwnedLedger
        ensures empty { means (held result.records result.count) (λ s. false) (result.size - result.count) ≡ empty_book (λ s. false) (min size 1024) }
    {
        OwnedLedger {
            size: size.min(LEDGER_SIZE),
            count: 0,
            records: [BLANK; LEDGER_SIZE],
        }
    }
}

impl Register for OwnedLedger {
    ghost live = { λ b. held b.records b.count };

    ghost orderly = { λ b. kept_orderly b.records b.size b.count b.sound.kept };

    fn lookup(&self, serial: u16) -> Option<Entry> {
        look_up(&self.records[..self.count], serial)
    }

    fn next_after(&self, serial: u16) -> Option<Entry> {
        next_up(&self.records[..self.count], serial)
    }
}

impl Book for OwnedLedger {
    ghost barred = { λ b s. false };

    ghost free = { λ b. b.size - b.count };

    ghost behind = { λ a b. OwnedBehind a.records a.size b.records b.size };

    ghost still = { λ b. owned_still b.records b.size };

    ghost onward = { λ a b c. owned_onward a.records a.size b.records b.size c.records c.size };

    fn file(&mut self, entry: Entry) -> Result<(), Denial> {
        put_in(&mut self.records, &mut self.count, self.size, entry)
    }

    fn strike(&mut self, serial: u16) -> Result<(), Denial> {
        take_out(&mut self.records, &mut self.count, self.size, serial)
    }
}
