// The table of principals: at most 64 rows.
use crate::row::PrincipalRow;
use crate::table::Table;

const LIMIT: usize = 64;

pub type Principals = Table<PrincipalRow, LIMIT>;
