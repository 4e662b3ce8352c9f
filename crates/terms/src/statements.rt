// The table of statements: at most 256 rows.
use crate::row::StatementRow;
use crate::table::Table;

const LIMIT: usize = 256;

pub type Statements = Table<StatementRow, LIMIT>;
