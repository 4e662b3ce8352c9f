// Going through the live entries of a book.
ghost use Rattle.std.specs.Prelude.{◌≡◌};
ghost use Rattle.std.specs.Iterator.{item_count, YieldsFirst};
ghost use Rattle.book.specs.Going.{entries_left};
ghost use Rattle.book.specs.Listings.{live_above};

use crate::entry::Entry;
use crate::register::Register;

// The live entries of a book above a serial, in rising serial order.
#[derive(Drop)]
pub struct Entries<'a, R> {
    book: &'a R,
    after: u16,
}

impl<'a, R: Register> Entries<'a, R> {
    pub fn new(book: &'a R, after: u16) -> Entries<'a, R>
        ensures left { entries_left R.live result ≡ live_above (R.live book.now) after }
    {
        Entries { book, after }
    }
}

impl<'a, R: Register> Iterator for Entries<'a, R> {
    type Item = Entry;

    ghost remaining = { item_count (entries_left R.live) };

    ghost next_gives = { YieldsFirst (entries_left R.live) };

    fn next(&mut self) -> Option<Entry> {
        let entry = self.book.next_after(self.after)?;
        self.after = entry.serial;
        Some(entry)
    }
}
