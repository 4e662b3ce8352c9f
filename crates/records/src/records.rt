// Finding a serial among rising records, and shifting records to put one in or take one out.
ghost use Rattle.std.specs.Prelude.{◌<◌, ◌≤◌, length};
ghost use Rattle.records.specs.Records.{Rising, Sought, ShiftedIn, ShiftedOut};

use book::entry::{BLANK, Entry};

// The record that bears a serial, or the place where it would stand.
pub(crate) fn find(records: &[Entry], serial: u16) -> Result<usize, usize>
    requires { Rising records.now (length records.now) }
    ensures { Sought records.now (length records.now) serial result }
{
    records.binary_search_by_key(&serial, |record| record.serial)
}

// Puts an entry in at a place; the records from there on move up by one. Count and place are numbers, as the library's `copy_within` takes them.
pub(crate) fn shift_in(records: &mut [Entry], count: usize, at: usize, entry: Entry)
    requires place { at ≤ count }
    requires room { count < length records.old }
    ensures { ShiftedIn records.old count at entry records.new }
{
    records.copy_within(at..count, at + 1);
    records[at] = entry;
}

// Takes a record out; the records behind it move down by one, and the last place is blank.
pub(crate) fn shift_out(records: &mut [Entry], count: usize, at: usize)
    requires place { at < count }
    requires within { count ≤ length records.old }
    ensures { ShiftedOut records.old count at records.new }
{
    records.copy_within(at + 1..count, at);
    records[count - 1] = BLANK;
}
