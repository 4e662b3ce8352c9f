// The two tables of a gate together: every principal that a statement's row names is there.
ghost use Rattle.std.specs.Prelude.{take};
ghost use Rattle.terms.specs.Tables.{PartsNamed, principals_needed};

use crate::principals::Principals;
use crate::statements::Statements;

// The statements' operands that are principals name rows of the table of principals.
#[derive(Clone, Copy)]
pub struct Names {
    pub(crate) principals: Principals,
    pub(crate) statements: Statements,
    ghost named: { PartsNamed principals_needed principals.count (take statements.count statements.rows) },
}
