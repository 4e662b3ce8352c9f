// What a trail holds, and how many.
ghost use Rattle.trail.specs.Places.{Sound};

use crate::blank::Blank;

// The first `len` places are its entries, in order of arrival. No more are in use than the 4,096 that count, and all the others are blank.
// No Model: clauses speak of the entries and of the slice that is lent, which a view of the entries would hide.
// A slice with a length, and no Vec: the table is lent, and its caller gets every place of it back blank.
#[derive(Drop)]
pub struct Trail<'a, T: Blank> {
    pub(crate) places: &'a mut [T],
    pub(crate) len: usize,
    pub ghost sound: { Sound T.blank places.now len },
}

impl<'a, T: Blank> Trail<'a, T> {
    ghost use Rattle.std.specs.Prelude.{◌≡◌, length};
    ghost use Rattle.trail.specs.Trails.{entries_of};

    // How many entries it has.
    pub fn len(&self) -> usize
        ensures answer { result ≡ length (entries_of self.now) }
    {
        self.len
    }
}
