// The four calls of a book on records in rising order, whoever holds the records.
ghost use Rattle.std.specs.Prelude.{◌≡◌, ℕ, ◌≤◌, length, slice_index_or};
ghost use Rattle.book.specs.Live.{blank, next_after};
ghost use Rattle.book.specs.Meaning.{file_answer, file_after, strike_answer, strike_after};
ghost use Rattle.records.specs.Records.{held, Kept, InUse, kept_means};

use crate::records::{find, shift_in, shift_out};
use book::entry::Entry;
use denials::denial::{Denial, Reason};

// The entry of a serial among the records in use. With `ok` and `map` it was tried, and the proof did not close: they hide what `find` says of its answer.
pub(crate) fn look_up(in_use: &[Entry], serial: u16) -> Option<Entry>
    requires { InUse in_use.now }
    ensures { result ≡ held in_use.now (length in_use.now) serial }
{
    match find(in_use, serial) {
        Ok(at) => Some(in_use[at]),
        Err(_) => None,
    }
}

// The entry with the lowest serial above the given one.
pub(crate) fn next_up(in_use: &[Entry], serial: u16) -> Option<Entry>
    requires { InUse in_use.now }
    ensures { result ≡ next_after (held in_use.now (length in_use.now)) serial }
{
    let at = in_use.partition_point(|record| record.serial <= serial);
    in_use.get(at).copied()
}

// Files an entry in the first `size` records, of which `count` are in use.
// The three go side by side: whoever holds the records holds the numbers too, and a struct of them would borrow each from there.
pub(crate) fn put_in(
    records: &mut [Entry],
    count: &mut usize,
    size: usize,
    entry: Entry,
) -> Result<(), Denial>
    requires { Kept records.old size count.old }
    ensures kept { Kept records.new size count.new }
    ensures answer { result ≡ file_answer (kept_means records.old size count.old) entry }
    ensures after { kept_means records.new size count.new ≡ file_after (kept_means records.old size count.old) entry }
    ensures behind { (k : ℕ) → size ≤ k → slice_index_or records.new k blank ≡ slice_index_or records.old k blank }
{
    if entry.serial == 0 {
        return Err(Reason::SerialZero.at(0));
    }
    match find(&records[..*count], entry.serial) {
        Ok(_) => Err(Reason::SerialLive.at(entry.serial as u64)),
        Err(at) => {
            if *count == size {
                return Err(Reason::NoFreePlace.at(entry.serial as u64));
            }
            shift_in(records, *count, at, entry);
            *count += 1;
            Ok(())
        }
    }
}

// Strikes a serial in the first `size` records, of which `count` are in use. They go side by side, as for filing.
pub(crate) fn take_out(
    records: &mut [Entry],
    count: &mut usize,
    size: usize,
    serial: u16,
) -> Result<(), Denial>
    requires { Kept records.old size count.old }
    ensures kept { Kept records.new size count.new }
    ensures answer { result ≡ strike_answer (kept_means records.old size count.old) serial }
    ensures after { kept_means records.new size count.new ≡ strike_after (kept_means records.old size count.old) serial }
    ensures behind { (k : ℕ) → size ≤ k → slice_index_or records.new k blank ≡ slice_index_or records.old k blank }
{
    match find(&records[..*count], serial) {
        Ok(at) => {
            shift_out(records, *count, at);
            *count -= 1;
            Ok(())
        }
        Err(_) => Err(Reason::NotLive.at(serial as u64)),
    }
}
