// The calls of a gate: naming, filing and striking.
ghost use Rattle.std.specs.Prelude.{◌≡◌};
ghost use Rattle.book.specs.Meaning.{means};
ghost use Rattle.book.specs.Going.{entries_left};
ghost use Rattle.book.specs.Listings.{all_live};
ghost use Rattle.book.specs.Live.{next_after};
ghost use Rattle.terms.specs.Laws.{LawfulNaming, principal_name, principal_named, statement_name, statement_named};
ghost use Rattle.terms.specs.Rows.{principal_form, principal_x, principal_y, statement_form, statement_x, statement_y};
ghost use Rattle.gate.specs.Laws.{FiledAt, StruckAt};
ghost use Rattle.gate.specs.State.{state, new_gate, principal_call, principal_left, statement_call, statement_left, filing, filing_left, striking, striking_left};

use crate::gate::Gate;
use book::entries::Entries;
use book::entry::{Entry, Standing};
use book::filing::Book;
use book::register::Register;
use denials::denial::{Denial, Reason};
use terms::names::Names;

impl<B: Book> Gate<B> {
    // A gate with no rows over a book that may already hold entries.
    pub fn new(number: u32, book: B) -> Gate<B>
        ensures state { state B.Book result ≡ new_gate number (means (B.live book) (B.barred book) (B.free book)) }
    {
        Gate {
            number,
            names: Names::new(),
            book,
        }
    }

    // The number that the fitter gave.
    pub fn number(&self) -> u32
        ensures answer { result ≡ (state B.Book self.now).number }
    {
        self.number
    }

    // The live entry with the lowest serial above the given one, or nothing.
    pub fn next_after(&self, serial: u16) -> Option<Entry>
        ensures answer { result ≡ next_after (state B.Book self.now).book.live serial }
    {
        self.book.next_after(serial)
    }

    // All live entries, in rising serial order.
    pub fn entries(&self) -> Entries<'_, B>
        ensures entries { entries_left B.live result ≡ all_live (state B.Book self.now).book.live }
    {
        Entries::new(&self.book, 0)
    }

    // Names a principal by its form and operands, and answers its row number. A form stays a number, as a standing does: any may be given, and the gate denies what is none.
    pub fn principal(&mut self, form: u8, x: u16, y: u16) -> Result<u16, Denial>
        ensures answer { result ≡ principal_call (state B.Book self.old) form x y }
        ensures after { state B.Book self.new ≡ principal_left (state B.Book self.old) form x y }
        ensures lawful { LawfulNaming principal_form principal_x principal_y (λ t. t.principals) principal_name principal_named (state B.Book self.old).rows form x y }
    {
        self.names.principal(form, x, y)
    }

    // Names a statement by its form and operands, and answers its row number. A call for each kind, as a job names them; form and operands come one by one, as a caller has them.
    pub fn statement(&mut self, form: u8, x: u16, y: u16) -> Result<u16, Denial>
        ensures answer { result ≡ statement_call (state B.Book self.old) form x y }
        ensures after { state B.Book self.new ≡ statement_left (state B.Book self.old) form x y }
        ensures lawful { LawfulNaming statement_form statement_x statement_y (λ t. t.statements) statement_name statement_named (state B.Book self.old).rows form x y }
    {
        self.names.statement(form, x, y)
    }

    // Tries the standing and the row, and then files in the book. Apart from `file`, which says in words what these clauses compute.
    fn file_row(&mut self, serial: u16, standing: u8, row: u16) -> Result<(), Denial>
        ensures answer { result ≡ filing (state B.Book self.old) serial standing row }
        ensures after { state B.Book self.new ≡ filing_left (state B.Book self.old) serial standing row }
    {
        let standing = Standing::try_from(standing)?;
        if self.names.statement_row(row).is_none() {
            return Err(Reason::RowNotNamed.at(0));
        }
        self.book.file(Entry {
            serial,
            standing,
            row,
        })
    }

    // Files a statement row under a serial, as a rule (standing 1) or a saying (standing 2).
    pub fn file(&mut self, serial: u16, standing: u8, row: u16) -> Result<(), Denial>
        ensures answer { result ≡ filing (state B.Book self.old) serial standing row }
        ensures after { state B.Book self.new ≡ filing_left (state B.Book self.old) serial standing row }
        ensures filed { FiledAt (state B.Book self.old) serial standing row result (state B.Book self.new) }
    {
        self.file_row(serial, standing, row)
    }

    // Strikes the live entry of a serial.
    pub fn strike(&mut self, serial: u16) -> Result<(), Denial>
        ensures answer { result ≡ striking (state B.Book self.old) serial }
        ensures after { state B.Book self.new ≡ striking_left (state B.Book self.old) serial }
        ensures struck { StruckAt (state B.Book self.old) serial result (state B.Book self.new) }
    {
        self.book.strike(serial)
    }
}
