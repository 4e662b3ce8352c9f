// Goes through the serials of a layer and the entries of a book, which stay text until they are wanted.
ghost use Rattle.std.specs.Prelude.{◌≡◌, [], ◌∷◌, Some, None, MatchOption};
ghost use Rattle.job.specs.Books.{listed, held_in, held_as, entry};
ghost use Rattle.job.specs.Words.{words};

use crate::limits::{SMALL, STANDING};
use crate::numbers::number;
use crate::words::{cut, next_word};
use book::entry::{Entry, Standing};

// The first serial of the text and what follows it, or nothing where the text begins with no serial.
pub fn next_serial(text: &[u8]) -> Option<(u16, &[u8])>
    ensures { MatchOption result (listed (words text.now) ≡ []) (λ p. listed (words text.now) ≡ p.0 ∷ listed (words p.1.now)) }
{
    let (first, after) = next_word(text)?;
    let serial = number(first, SMALL)?;
    Some((serial as u16, after))
}

// The entry that a word is: three numbers parted by colons, the middle one 1 or 2.
pub(crate) fn read_entry(text: &[u8]) -> Option<Entry>
    ensures { MatchOption result (entry text.now ≡ None) (λ e. entry text.now ≡ Some (held_as e)) }
{
    let (first, after) = cut(text, b':');
    let (second, third) = cut(after, b':');
    let serial = number(first, SMALL)?;
    let standing = number(second, STANDING)?;
    let row = number(third, SMALL)?;
    Some(Entry {
        serial: serial as u16,
        standing: Standing::try_from(standing as u8).ok()?,
        row: row as u16,
    })
}

// The first entry of the text and what follows it, or nothing where the text begins with no entry.
pub fn next_entry(text: &[u8]) -> Option<(Entry, &[u8])>
    ensures { MatchOption result (held_in (words text.now) ≡ []) (λ p. held_in (words text.now) ≡ held_as p.0 ∷ held_in (words p.1.now)) }
{
    let (first, after) = next_word(text)?;
    Some((read_entry(first)?, after))
}

// The serials that the text begins with, in order.
#[derive(Clone, Copy)]
pub struct Serials<'a>(pub &'a [u8]);

impl<'a> Iterator for Serials<'a> {
    ghost use Rattle.std.specs.Iterator.{YieldsFirst, item_count};
    ghost use Rattle.job.specs.Books.{listed};
    ghost use Rattle.job.specs.Words.{words};

    type Item = u16;

    ghost next_gives = { YieldsFirst (λ s. listed (words s.0.now)) };

    ghost remaining = { item_count (λ s. listed (words s.0.now)) };

    fn next(&mut self) -> Option<u16> {
        let (serial, after) = next_serial(self.0)?;
        self.0 = after;
        Some(serial)
    }
}

// The entries that the text begins with, in order. Two iterators, each with what is left in its contract: `map_while` over the words would leave that to whoever goes through them.
#[derive(Clone, Copy)]
pub struct Entries<'a>(pub &'a [u8]);

impl<'a> Iterator for Entries<'a> {
    ghost use Rattle.std.specs.Iterator.{YieldsFirstBy, item_count};
    ghost use Rattle.job.specs.Books.{held_in, held_as};
    ghost use Rattle.job.specs.Words.{words};

    type Item = Entry;

    ghost next_gives = { YieldsFirstBy held_as (λ s. held_in (words s.0.now)) };

    ghost remaining = { item_count (λ s. held_in (words s.0.now)) };

    fn next(&mut self) -> Option<Entry> {
        let (entry, after) = next_entry(self.0)?;
        self.0 = after;
        Some(entry)
    }
}
