// Reading a form and two operands as a row. The form stays a number, since a caller gives it and an unknown one is denied.
// Two functions and not one of the trait: a statement is read against two counts, a principal against one.
ghost use Rattle.std.specs.Prelude.{◌≡◌, ◌≤◌, IfOk};
ghost use Rattle.terms.specs.Naming.{read_principal, read_statement};
ghost use Rattle.terms.specs.Tables.{principal_needs, statement_needs, principals_needed};

use crate::row::{PrincipalRow, StatementRow};
use denials::denial::{Denial, Reason};

const ATOMIC_PRINCIPALS: u16 = 64;

const ATOMIC_REQUESTS: u16 = 128;

const UNKNOWN_FORM: Denial = Denial {
    reason: Reason::UnknownForm,
    place: 0,
};

const BAD_OPERAND: Denial = Denial {
    reason: Reason::BadOperand,
    place: 0,
};

impl PrincipalRow {
    // A principal's row, where `known` principals are named.
    pub(crate) fn read(known: u16, form: u8, x: u16, y: u16) -> Result<PrincipalRow, Denial>
        ensures answer { result ≡ read_principal known form x y }
        ensures parts { IfOk result (λ r. principal_needs r ≤ known) }
    {
        match form {
            1 if x < ATOMIC_PRINCIPALS && y == 0 => Ok(PrincipalRow::Atom(x)),
            2 if x < known && y < known => Ok(PrincipalRow::Both(x, y)),
            3 if x < known && y < known => Ok(PrincipalRow::Quoting(x, y)),
            1..=3 => Err(BAD_OPERAND),
            _ => Err(UNKNOWN_FORM),
        }
    }
}

impl StatementRow {
    // A statement's row, where `principals` principals and `known` statements are named.
    pub(crate) fn read(
        principals: u16,
        known: u16,
        form: u8,
        x: u16,
        y: u16,
    ) -> Result<StatementRow, Denial>
        ensures answer { result ≡ read_statement principals known form x y }
        ensures parts { IfOk result (λ r. statement_needs r ≤ known) }
        ensures named { IfOk result (λ r. principals_needed r ≤ principals) }
    {
        match form {
            1 if x < ATOMIC_REQUESTS && y == 0 => Ok(StatementRow::Request(x)),
            2 if x < known && y == 0 => Ok(StatementRow::Not(x)),
            3 if x < known && y < known => Ok(StatementRow::And(x, y)),
            4 if x < principals && y < known => Ok(StatementRow::Says(x, y)),
            5 if x < principals && y < principals => Ok(StatementRow::SpeaksFor(x, y)),
            1..=5 => Err(BAD_OPERAND),
            _ => Err(UNKNOWN_FORM),
        }
    }
}
