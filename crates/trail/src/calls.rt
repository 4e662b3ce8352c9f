// The calls of a trail. Each of them, reading too, hands the whole slice on for writing.
use crate::blank::Blank;
use crate::places::{clear, counting, read, wipe, write};
use crate::trail::Trail;

impl<'a, T: Blank> Trail<'a, T> {
    ghost use Rattle.std.specs.Prelude.{◌≡◌, ℕ, ◌-◌, [], length, take};
    ghost use Rattle.std.specs.List.{slice_get};
    ghost use Rattle.trail.specs.Trails.{SamePlaces, entries_of, capacity_of, pushed, push_answer};

    // An empty trail. It blanks every place of the table, whatever it held.
    pub fn new(places: &'a mut [T]) -> Trail<'a, T>
        ensures empty { entries_of result ≡ [] }
        ensures places { SamePlaces places.entry result.places }
    {
        wipe(places);
        Trail { places, len: 0 }
    }

    // How many more entries it can take.
    pub fn room(&mut self) -> usize
        ensures answer { result ≡ capacity_of self.old - length (entries_of self.old) }
        ensures unchanged { self.new ≡ self.old }
    {
        let len = self.len;
        counting(self.places) - len
    }

    // The entry with the number `n`.
    pub fn get(&mut self, n: usize) -> Option<T>
        ensures answer { result ≡ slice_get (entries_of self.old) n }
        ensures unchanged { self.new ≡ self.old }
    {
        let len = self.len;
        read(self.places, len, n)
    }

    // Adds an entry at the end, or hands it back where no place is left.
    pub fn push(&mut self, entry: T) -> Result<(), T>
        ensures answer { result ≡ push_answer (capacity_of self.old) (entries_of self.old) entry }
        ensures after { entries_of self.new ≡ pushed (capacity_of self.old) (entries_of self.old) entry }
        ensures places { SamePlaces self.old.places self.new.places }
    {
        let len = self.len;
        if len >= counting(self.places) {
            return Err(entry);
        }
        // The count goes first: what the type keeps has to hold at each write through the lent slice.
        self.len = len + 1;
        write(self.places, len, entry);
        Ok(())
    }

    // Keeps the first `n` entries; the places of the others are blank again.
    pub fn cut(&mut self, n: usize)
        ensures after { entries_of self.new ≡ take n (entries_of self.old) }
        ensures places { SamePlaces self.old.places self.new.places }
    {
        let len = self.len;
        if n < len {
            clear(self.places, n, len);
            self.len = n;
        }
    }
}

// An empty trail without places.
impl<'a, T: Blank> Default for Trail<'a, T> {
    ghost use Rattle.std.specs.Prelude.{◌≡◌, []};
    ghost use Rattle.trail.specs.Trails.{entries_of};

    ghost is_default = { λ t. entries_of t ≡ [] };

    fn default() -> Trail<'a, T> {
        Trail {
            places: &mut [],
            len: 0,
        }
    }
}
