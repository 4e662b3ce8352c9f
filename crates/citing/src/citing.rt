// What the operands of a line cite, and what the line then does.
ghost use Rattle.std.specs.Prelude.{◌≡◌};
ghost use Rattle.soundness.specs.Walking.{cite_entry, operand, cited, line_move};
ghost use Rattle.citing.specs.Open.{branch_of};
ghost use Rattle.citing.specs.Rests.{given_by};

use crate::branch::OpenBranch;
use crate::given::Given;
use book::entry::{Entry, Standing};
use book::register::Register;
use denials::denial::{Denial, Reason};
use fitting::fitting::fitting;
use rules::line::{Line, Use};
use rules::moves::{Cited, Move, NextWorlds, Operand};
use rules::rule::Rule;
use rules::table::Shape;

impl<'a, R: Register> Given<'a, R> {
    // What an operand of a line on the branch cites, used so.
    // Three calls for each line: as a call of its own it made the whole walk slower by a quarter.
    #[inline(always)]
    #[tactic(auto, using(crate::proofs::Same::same_branch))]
    fn operand(&self, branch: &mut OpenBranch, used: Use, n: u16) -> Option<Operand>
        ensures answer { result ≡ operand (given_by R.live self.now).rows (branch_of branch.old) used n }
        ensures unchanged { branch.new ≡ branch.old }
    {
        match used {
            Use::Fact => branch.facts.get(n as usize).map(|fact| Operand::Fact(
                fact,
                self.names.statement_row(fact.row),
            )),
            Use::Link => branch.links.get(n as usize).map(|link| Operand::Link(
                link,
                self.names.principal_row(link.row),
            )),
            Use::World => (n < branch.worlds).then_some(Operand::World(n)),
            Use::Row => self.names.principal_row(n).map(|row| Operand::Row(n, row)),
            Use::Serial => Some(Operand::Serial(n)),
            Use::Unused => Some(Operand::Unused),
        }
    }

    // The row of a live entry, if its standing is the one that the rule cites and its row is named.
    fn cite_entry(&self, rule: Rule, entry: Option<Entry>) -> Option<Operand>
        ensures { result ≡ cite_entry (given_by R.live self.now).rows rule entry }
    {
        let entry = entry?;
        match (rule, entry.standing) {
            (Rule::CiteRule, Standing::Rule) | (Rule::CiteSaying, Standing::Saying)
                if self.names.statement_row(entry.row).is_some() => {
                Some(Operand::Entry(entry.row))
            }
            _ => None,
        }
    }

    // A serial becomes the row of its entry; every other operand stays. The book is asked here and nowhere else.
    fn cited(&self, rule: Rule, operand: Operand) -> Option<Operand>
        ensures { result ≡ cited (given_by R.live self.now) rule operand }
    {
        match operand {
            Operand::Serial(serial) => self.cite_entry(rule, self.book.lookup(serial)),
            other => Some(other),
        }
    }

    // What a line of this shape does on the branch; denied with 22, 23 or 24 at the line's number.
    // Each operand is fetched by a `let` of its own, so that the order of the denials is that of these lines.
    pub fn move_of(
        &self,
        branch: &mut OpenBranch,
        shape: Shape,
        line: Line,
        number: u64,
    ) -> Result<Move, Denial>
        ensures answer { result ≡ line_move (given_by R.live self.now) (branch_of branch.old) shape line number }
        ensures unchanged { branch.new ≡ branch.old }
    {
        let Some(a) = self.operand(branch, shape.a, line.a) else {
            return Err(Reason::NoSuchOperand.at(number));
        };
        let Some(b) = self.operand(branch, shape.b, line.b) else {
            return Err(Reason::NoSuchOperand.at(number));
        };
        let Some(c) = self.operand(branch, shape.c, line.c) else {
            return Err(Reason::NoSuchOperand.at(number));
        };
        let Some(a) = self.cited(shape.rule, a) else {
            return Err(Reason::NoLiveEntry.at(number));
        };
        let next = NextWorlds {
            first: branch.worlds,
            second: branch.worlds + 1,
        };
        fitting(shape.rule, Cited { a, b, c }, next, number)
    }
}
