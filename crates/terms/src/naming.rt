// Naming in both tables, and reading what is named.
ghost use Rattle.std.specs.Prelude.{◌≡◌, ℕ, true, [], length, Some, Decides};
ghost use Rattle.std.specs.List.{slice_get};
ghost use Rattle.terms.specs.Laws.{LawfulNaming, principal_name, principal_named, statement_name, statement_named};
ghost use Rattle.terms.specs.Named.{rows_of};
ghost use Rattle.terms.specs.Rows.{principal_form, principal_x, principal_y, statement_form, statement_x, statement_y};
ghost use Rattle.terms.specs.Written.{Statement, statement_written};

use crate::names::Names;
use crate::principals::Principals;
use crate::row::{PrincipalRow, StatementRow};
use crate::statements::Statements;
use denials::denial::Denial;

impl Names {
    // No principal and no statement.
    pub fn new() -> Self
        ensures principals { (rows_of result).principals ≡ [] }
        ensures statements { (rows_of result).statements ≡ [] }
    {
        Names {
            principals: Principals::new(PrincipalRow::Atom(0)),
            statements: Statements::new(StatementRow::Request(0)),
        }
    }

    // How many statements are named.
    pub fn statements(&self) -> u16
        ensures answer { result ≡ length (rows_of self.now).statements }
    {
        self.statements.count()
    }

    // The row of the principal with the number `n`, if it is named.
    pub fn principal_row(&self, n: u16) -> Option<PrincipalRow>
        ensures answer { result ≡ slice_get (rows_of self.now).principals n }
    {
        self.principals.get(n)
    }

    // The row of the statement with the number `n`, if it is named.
    pub fn statement_row(&self, n: u16) -> Option<StatementRow>
        ensures answer { result ≡ slice_get (rows_of self.now).statements n }
    {
        self.statements.get(n)
    }

    // Whether two rows are the same statement. Comparing numbers is enough: rows that write out alike are one row.
    pub fn same_statement(&self, a: u16, b: u16) -> bool
        ensures answer { (s t : Statement) → statement_written (rows_of self.now) a ≡ Some s → statement_written (rows_of self.now) b ≡ Some t → Decides result (s ≡ t) }
    {
        a == b
    }

    // Names a principal by its form and operands, and answers its number. A form stays a number: any may be given, and one that is none is denied.
    pub fn principal(&mut self, form: u8, x: u16, y: u16) -> Result<u16, Denial>
        ensures answer { result ≡ principal_name (rows_of self.old) form x y }
        ensures after { rows_of self.new ≡ principal_named (rows_of self.old) form x y }
        ensures lawful { LawfulNaming principal_form principal_x principal_y (λ t. t.principals) principal_name principal_named (rows_of self.old) form x y }
    {
        let row = PrincipalRow::read(self.principals.count(), form, x, y)?;
        self.principals.put(row)
    }

    // Names a statement by its form and operands, and answers its number. A call for each kind: whoever names says which, and one over both would have to be told.
    pub fn statement(&mut self, form: u8, x: u16, y: u16) -> Result<u16, Denial>
        ensures answer { result ≡ statement_name (rows_of self.old) form x y }
        ensures after { rows_of self.new ≡ statement_named (rows_of self.old) form x y }
        ensures lawful { LawfulNaming statement_form statement_x statement_y (λ t. t.statements) statement_name statement_named (rows_of self.old) form x y }
    {
        let principals = self.principals.count();
        let known = self.statements.count();
        let row = StatementRow::read(principals, known, form, x, y)?;
        self.statements.put(row)
    }
}
