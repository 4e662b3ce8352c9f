// A table of rows, numbered from 0 in the order of naming: the same for principals and for statements.
ghost use Rattle.std.specs.Prelude.{◌≡◌, ◌^◌, ◌<◌, ◌≤◌, ⊤, [], length, take, IfSome};
ghost use Rattle.std.specs.List.{position, slice_get};
ghost use Rattle.terms.specs.Naming.{same, put_answer, put_after};
ghost use Rattle.terms.specs.Tables.{Distinct, PartsEarlier};

use crate::row::Row;
use denials::denial::{Denial, Reason};
use std::alloc::AllocError;

const TABLE_FULL: Denial = Denial {
    reason: Reason::TableFull,
    place: 0,
};

// The first `count` rows are named: no row stands twice, and the parts of a row that are of its own kind stand before it.
// An array with a count, and no Vec: a gate has no heap, and its names are Copy.
#[derive(Copy)]
pub struct Table<R: Row, const LIMIT: usize> {
    rows: [R; LIMIT],
    count: usize,
    ghost size: { length rows ≡ LIMIT },
    ghost numbered: { LIMIT < 2 ^ 16 },
    ghost within: { count ≤ LIMIT },
    ghost distinct: { Distinct (take count rows) },
    ghost earlier: { PartsEarlier R.needs (take count rows) },
}

// `Clone` can't be derived for a generic struct with ghost fields.
impl<R: Row, const LIMIT: usize> Clone for Table<R, LIMIT> {
    ghost is_clone = { λ x y. y ≡ x };

    ghost is_infallible = { λ _. ⊤ };

    fn clone(&self) -> Result<Self, AllocError> {
        Ok(*self)
    }
}

impl<R: Row, const LIMIT: usize> Table<R, LIMIT> {
    ghost use Rattle.terms.specs.Named.{rows_in};

    // A table with no row; `blank` fills the places that are not named.
    pub(crate) fn new(blank: R) -> Self
        requires { LIMIT < 2 ^ 16 }
        ensures rows { rows_in result ≡ [] }
    {
        Table {
            rows: [blank; LIMIT],
            count: 0,
        }
    }

    // The rows that are named.
    fn named(&self) -> &[R]
        ensures rows { result.now ≡ rows_in self.now }
    {
        &self.rows[..self.count]
    }

    // How many rows are named.
    pub(crate) fn count(&self) -> u16
        ensures answer { result ≡ length (rows_in self.now) }
    {
        self.count as u16
    }

    // The row with the number `n`, if it is named.
    pub(crate) fn get(&self, n: u16) -> Option<R>
        ensures answer { result ≡ slice_get (rows_in self.now) n }
    {
        self.named().get(usize::from(n)).copied()
    }

    // Where a row stands among the named ones.
    fn position(&self, row: R) -> Option<usize>
        ensures answer { result ≡ position (same R.form R.x R.y row) (rows_in self.now) }
        ensures within { IfSome result (λ i. i < self.now.count) }
    {
        self.named().iter().position(|other| row == *other)
    }

    // The number of a row whose parts are named: an old row's where it stands, a new one's behind the others.
    // A new row is put in by value and the table written back whole, so that no table is seen between two writes.
    pub(crate) fn put(&mut self, row: R) -> Result<u16, Denial>
        requires { R.needs row ≤ length (rows_in self.old) }
        ensures answer { result ≡ put_answer LIMIT (rows_in self.old) (position (same R.form R.x R.y row) (rows_in self.old)) }
        ensures after { rows_in self.new ≡ put_after LIMIT (rows_in self.old) row (position (same R.form R.x R.y row) (rows_in self.old)) }
        ensures kept { self.old.count ≤ self.new.count }
    {
        if let Some(at) = self.position(row) {
            return Ok(at as u16);
        }
        if self.count >= LIMIT {
            return Err(TABLE_FULL);
        }
        let at = self.count;
        let mut rows = self.rows;
        rows[at] = row;
        *self = Table {
            rows,
            count: at + 1,
        };
        Ok(at as u16)
    }
}
