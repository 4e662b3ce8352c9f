// The largest number of each kind that a line may hold. A reading generic in the type would need a trait for these limits, since its contract names them.

pub(crate) const GATE: u32 = u32::MAX;

// A form, and the standing that `file` is given.
pub(crate) const CODE: u32 = u8::MAX as u32;

// An operand, a row or a serial.
pub(crate) const SMALL: u32 = u16::MAX as u32;

// The records of a ledger.
pub(crate) const RECORDS: u32 = 1_000_000;

// The standing of an entry that a book holds already; the smallest is 1.
pub(crate) const STANDING: u32 = 2;
