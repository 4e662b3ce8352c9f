// Whether what a line cites fits its rule, and what the line then does.
ghost use Rattle.std.specs.Prelude.{◌≡◌};
ghost use Rattle.std.specs.Option.{ok_or};
ghost use Rattle.denials.specs.Denials.{denied};
ghost use Rattle.rules.specs.Fits.{fits, fits_fact, fits_link};

use denials::denial::{Denial, Reason};
use rules::branch::Sign::{False, True};
use rules::branch::{Fact, Link};
use rules::moves::{Cited, Move, NextWorlds, Operand};
use rules::rule::Rule;
use terms::row::{PrincipalRow, StatementRow};

// What a line does that cites a fact first, whose statement row has this form.
// One match, and long for that: what fits stands in one place, and the case that remains is denied there.
fn from_fact(
    rule: Rule,
    fact: Fact,
    form: Option<StatementRow>,
    cited: Cited,
    next: NextWorlds,
    line: u64,
) -> Result<Move, Denial>
    ensures { result ≡ ok_or (fits_fact rule fact form cited.b next.first next.second) (denied 24 line) }
{
    match (rule, fact.sign, form, cited.b) {
        (Rule::Not, sign, Some(StatementRow::Not(s)), _) => Ok(Move::AddFact(Fact::new(
            !sign, s, fact.world,
        ))),
        (Rule::AndTrue, True, Some(StatementRow::And(s, t)), _) => Ok(Move::AddFacts(
            Fact { row: s, ..fact },
            Fact { row: t, ..fact },
        )),
        (Rule::AndFalse, False, Some(StatementRow::And(s, t)), _) => Ok(Move::ForkFacts(
            Fact { row: s, ..fact },
            Fact { row: t, ..fact },
        )),
        (
            Rule::SaysTrue,
            True,
            Some(StatementRow::Says(p, s)),
            Operand::Link(link @ Link { sign: True, .. }, _),
        ) if link.row == p && link.from == fact.world => Ok(Move::AddFact(Fact::new(
            True, s, link.to,
        ))),
        (Rule::SaysFalse, False, Some(StatementRow::Says(p, s)), _) => Ok(Move::Successor(
            Link::new(True, p, fact.world, next.first),
            Fact::new(False, s, next.first),
        )),
        (
            Rule::SpeaksForTrue,
            True,
            Some(StatementRow::SpeaksFor(p, q)),
            Operand::Link(link @ Link { sign: True, .. }, _),
        ) if link.row == q => Ok(Move::AddLink(Link { row: p, ..link })),
        (Rule::SpeaksForFalse, False, Some(StatementRow::SpeaksFor(p, q)), _) => Ok(Move::Apart(
            Link::new(True, q, next.first, next.second),
            Link::new(False, p, next.first, next.second),
        )),
        (Rule::FactsClash, True, _, Operand::Fact(other @ Fact { sign: False, .. }, _))
            if fact.row == other.row && fact.world == other.world => Ok(Move::Close),
        // A literal: with `Reason::at` it was tried, and the proof did not close.
        _ => Err(Denial {
            reason: Reason::NeedsDoNotFit,
            place: line,
        }),
    }
}

// What a line does that cites a link first, whose principal row has this form.
fn from_link(
    rule: Rule,
    link: Link,
    form: Option<PrincipalRow>,
    cited: Cited,
    next: NextWorlds,
    line: u64,
) -> Result<Move, Denial>
    ensures { result ≡ ok_or (fits_link rule link form cited.b cited.c next.first) (denied 24 line) }
{
    match (rule, link.sign, form, cited.b, cited.c) {
        (Rule::BothLinked, True, Some(PrincipalRow::Both(p, q)), _, _) => Ok(Move::ForkLinks(
            Link { row: p, ..link },
            Link { row: q, ..link },
        )),
        (Rule::QuotingLinked, True, Some(PrincipalRow::Quoting(p, q)), _, _) => Ok(Move::Through(
            Link::new(True, p, link.from, next.first),
            Link::new(True, q, next.first, link.to),
        )),
        (Rule::IntoBoth, True, _, Operand::Row(whole, PrincipalRow::Both(p, q)), _)
            if link.row == p || link.row == q => Ok(Move::AddLink(Link { row: whole, ..link })),
        (
            Rule::IntoQuoting,
            True,
            _,
            Operand::Link(then @ Link { sign: True, .. }, _),
            Operand::Row(whole, PrincipalRow::Quoting(p, q)),
        ) if link.row == p && then.row == q && link.to == then.from => Ok(Move::AddLink(Link::new(
            True, whole, link.from, then.to,
        ))),
        (Rule::LinksClash, True, _, Operand::Link(other @ Link { sign: False, .. }, _), _)
            if link.row == other.row && link.from == other.from && link.to == other.to => Ok(
            Move::Close,
        ),
        // A literal: with `Reason::at` it was tried, and the proof did not close.
        _ => Err(Denial {
            reason: Reason::NeedsDoNotFit,
            place: line,
        }),
    }
}

// What a line of this rule does with what its operands cite. The line's number is the place of the denial.
pub fn fitting(rule: Rule, cited: Cited, next: NextWorlds, line: u64) -> Result<Move, Denial>
    ensures answer { result ≡ ok_or (fits rule cited.a cited.b cited.c next.first next.second) (denied 24 line) }
{
    match (rule, cited.a, cited.b) {
        (Rule::CiteRule, Operand::Entry(row), Operand::World(world)) => Ok(Move::AddFact(Fact::new(
            True, row, world,
        ))),
        (Rule::CiteSaying, Operand::Entry(row), _) => Ok(Move::AddFact(Fact::new(True, row, 0))),
        (_, Operand::Fact(fact, form), _) => from_fact(rule, fact, form, cited, next, line),
        (_, Operand::Link(link, form), _) => from_link(rule, link, form, cited, next, line),
        // A literal: with `Reason::at` it was tried, and the proof did not close.
        _ => Err(Denial {
            reason: Reason::NeedsDoNotFit,
            place: line,
        }),
    }
}
