// The rows of the two tables: a principal or a statement as a form and two operands.
ghost use Rattle.std.specs.Prelude.{◌≡◌, ℕ};
ghost use Rattle.std.proofs.Common.{rules};
ghost use Rattle.terms.specs.Naming.{same};
ghost use Rattle.terms.specs.Rows.{Determined, principal_form, principal_x, principal_y, principal_determined, statement_form, statement_x, statement_y, statement_determined};
ghost use Rattle.terms.specs.Tables.{principal_needs, statement_needs};

// A principal: an atomic one by its number, P & Q, or P | Q (P quoting Q). The operands of the last two are earlier rows of the same table.
#[derive(Clone, Copy, PartialEq, Eq)]
pub enum PrincipalRow {
    Atom(u16),
    Both(u16, u16),
    Quoting(u16, u16),
}

// A statement: an atomic request by its number, not s, s and t, P says s, or P speaks for Q.
#[derive(Clone, Copy, PartialEq, Eq)]
pub enum StatementRow {
    Request(u16),
    Not(u16),
    And(u16, u16),
    Says(u16, u16),
    SpeaksFor(u16, u16),
}

// What the two kinds of rows share: each is told by its form and its operands, of which an unused one is 0.
// These three stay calls, though naming needs `==` alone: what the ghost members say of a row is said of code too.
pub trait Row: Copy + Eq {
    // How many rows of the same kind have to be named before this one: one more than its highest part.
    ghost needs: { Self → ℕ };

    ghost form: { Self → ℕ };

    ghost x: { Self → ℕ };

    ghost y: { Self → ℕ };

    // Rows with the same form and operands are the same row.
    ghost determined: { Determined form x y };

    fn form(self) -> u8
        ensures { result ≡ form self };

    fn x(self) -> u16
        ensures { result ≡ x self };

    fn y(self) -> u16
        ensures { result ≡ y self };

    // Rows are compared by form and operands.
    ghost compared: { (a b : Self) → Self.PartialEq.eq a b ≡ same form x y a b };
}

impl Row for PrincipalRow {
    ghost needs = { principal_needs };

    ghost form = { principal_form };

    ghost x = { principal_x };

    ghost y = { principal_y };

    ghost determined = { principal_determined };

    fn form(self) -> u8 {
        match self {
            PrincipalRow::Atom(_) => 1,
            PrincipalRow::Both(_, _) => 2,
            PrincipalRow::Quoting(_, _) => 3,
        }
    }

    fn x(self) -> u16 {
        match self {
            PrincipalRow::Atom(x) | PrincipalRow::Both(x, _) | PrincipalRow::Quoting(x, _) => x,
        }
    }

    fn y(self) -> u16 {
        match self {
            PrincipalRow::Atom(_) => 0,
            PrincipalRow::Both(_, y) | PrincipalRow::Quoting(_, y) => y,
        }
    }

    ghost compared = { λ a b. Prim.search rules };
}

impl Row for StatementRow {
    ghost needs = { statement_needs };

    ghost form = { statement_form };

    ghost x = { statement_x };

    ghost y = { statement_y };

    ghost determined = { statement_determined };

    fn form(self) -> u8 {
        match self {
            StatementRow::Request(_) => 1,
            StatementRow::Not(_) => 2,
            StatementRow::And(_, _) => 3,
            StatementRow::Says(_, _) => 4,
            StatementRow::SpeaksFor(_, _) => 5,
        }
    }

    fn x(self) -> u16 {
        match self {
            StatementRow::Request(x) | StatementRow::Not(x) => x,
            StatementRow::And(x, _) | StatementRow::Says(x, _) | StatementRow::SpeaksFor(x, _) => x,
        }
    }

    fn y(self) -> u16 {
        match self {
            StatementRow::Request(_) | StatementRow::Not(_) => 0,
            StatementRow::And(_, y) | StatementRow::Says(_, y) | StatementRow::SpeaksFor(_, y) => y,
        }
    }

    ghost compared = { λ a b. Prim.search rules };
}
