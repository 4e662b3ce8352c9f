// Reading a book: looking a serial up, and going from entry to entry.
ghost use Rattle.std.specs.Prelude.{◌≡◌, ℕ, Option};
ghost use Rattle.book.specs.declared.entry.Entry.{Entry};
ghost use Rattle.book.specs.Live.{Orderly, next_after};

use crate::entry::Entry;

// What can be looked up in a book.
pub trait Register {
    // The live entry of each serial.
    ghost live: { Self → ℕ → Option Entry };

    // The live entry of a serial, or nothing.
    fn lookup(&self, serial: u16) -> Option<Entry>
        ensures answer { result ≡ live self.now serial };

    // The live entry with the lowest serial above the given one, or nothing.
    fn next_after(&self, serial: u16) -> Option<Entry>
        ensures answer { result ≡ next_after (live self.now) serial };

    ghost orderly: { (b : Self) → Orderly (live b) };
}
