// Writing a book: filing an entry and striking one.
ghost use Rattle.std.specs.Prelude.{◌≡◌, ℕ, Bool};
ghost use Rattle.book.specs.Meaning.{means, file_answer, file_after, strike_answer, strike_after};

use crate::entry::Entry;
use crate::register::Register;
use denials::denial::Denial;

// What can be filed and struck. Barred serials never change.
pub trait Book: Register {
    ghost barred: { Self → ℕ → Bool };

    // The number of free places.
    ghost free: { Self → ℕ };

    // What no call touches, as the records behind those that a book uses.
    ghost behind: { Self → Self → Type 0 };

    // Adds a live entry, which takes one free place.
    fn file(&mut self, entry: Entry) -> Result<(), Denial>
        ensures answer { result ≡ file_answer (means (Self.live self.old) (barred self.old) (free self.old)) entry }
        ensures after { means (Self.live self.new) (barred self.new) (free self.new) ≡ file_after (means (Self.live self.old) (barred self.old) (free self.old)) entry }
        ensures behind { behind self.old self.new };

    // Removes a live entry, which frees one place.
    fn strike(&mut self, serial: u16) -> Result<(), Denial>
        ensures answer { result ≡ strike_answer (means (Self.live self.old) (barred self.old) (free self.old)) serial }
        ensures after { means (Self.live self.new) (barred self.new) (free self.new) ≡ strike_after (means (Self.live self.old) (barred self.old) (free self.old)) serial }
        ensures behind { behind self.old self.new };

    // What no call touches is the same in a book and itself, and from call to call.
    ghost still: { (b : Self) → behind b b };

    ghost onward: { (a b c : Self) → behind a b → behind b c → behind a c };
}
