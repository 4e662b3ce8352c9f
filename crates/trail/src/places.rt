// Work on the places of a trail. Each function is handed the whole slice for writing.
ghost use Rattle.std.specs.Prelude.{◌≡◌, ◌<◌, ◌≤◌, length, take, slice_set};
ghost use Rattle.std.specs.List.{slice_get};
ghost use Rattle.trail.specs.Places.{AllBlank, Cleared, capacity};

use crate::blank::Blank;

// No more places than this count.
pub(crate) const LIMIT: usize = 4096;

// Blanks every place.
pub fn wipe<T: Blank>(places: &mut [T])
    ensures blank { AllBlank T.blank places.new }
{
    let blank = T::blank();
    places.fill_with(|| blank);
}

// How many of the places count.
pub(crate) fn counting<T>(places: &mut [T]) -> usize
    ensures answer { result ≡ capacity places.old }
    ensures same { places.new ≡ places.old }
{
    places.len().min(LIMIT)
}

// What stands at a place that is in use.
pub(crate) fn read<T: Copy>(places: &mut [T], len: usize, n: usize) -> Option<T>
    requires { len ≤ length places.old }
    ensures answer { result ≡ slice_get (take len places.old) n }
    ensures same { places.new ≡ places.old }
{
    places[..len].get(n).copied()
}

// Writes an entry at a place.
pub(crate) fn write<T: Copy>(places: &mut [T], at: usize, entry: T)
    requires { at < length places.old }
    ensures after { places.new ≡ slice_set places.old at entry }
{
    places[at] = entry;
}

// Blanks the places from `from` on, before `to`.
#[tactic(auto, using(std::proofs::lemmas::List::places, std::proofs::lemmas::Slice::overwrites))]
pub(crate) fn clear<T: Blank>(places: &mut [T], from: usize, to: usize)
    requires { (from ≤ to) × (to ≤ length places.old) }
    ensures { Cleared T.blank places.old from to places.new }
{
    wipe(&mut places[from..to]);
}
