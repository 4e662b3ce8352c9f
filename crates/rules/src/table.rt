// The table of rules: for each code its rule, and what the operands A, B and C of its lines stand for.
ghost use Rattle.std.specs.Prelude.{◌≡◌};
ghost use Rattle.rules.specs.Shapes.{shape_numbered, shaped, takes, idle};

use crate::line::{Line, Use};
use crate::rule::Rule;

// A rule with the uses of its operands.
#[derive(Clone, Copy)]
pub struct Shape {
    pub rule: Rule,
    pub a: Use,
    pub b: Use,
    pub c: Use,
}

// What a line adds and takes by its code alone: so many more facts, links, worlds and forks, and whether it closes the branch.
#[derive(Clone, Copy)]
pub struct Places {
    pub facts: u16,
    pub links: u16,
    pub worlds: u16,
    pub forks: u16,
    // a flag and no enum, for whoever tells a line by its code alone: a line that closes takes no place, and the test for free places reads its four counts like any other's. `takes` promises it; nothing here reads it
    pub closes: bool,
}

// The shapes of the codes 1 to 15, in their order.
const SHAPES: [Shape; 15] = [
    Shape {
        rule: Rule::CiteRule,
        a: Use::Serial,
        b: Use::World,
        c: Use::Unused,
    },
    Shape {
        rule: Rule::CiteSaying,
        a: Use::Serial,
        b: Use::Unused,
        c: Use::Unused,
    },
    Shape {
        rule: Rule::Not,
        a: Use::Fact,
        b: Use::Unused,
        c: Use::Unused,
    },
    Shape {
        rule: Rule::AndTrue,
        a: Use::Fact,
        b: Use::Unused,
        c: Use::Unused,
    },
    Shape {
        rule: Rule::AndFalse,
        a: Use::Fact,
        b: Use::Unused,
        c: Use::Unused,
    },
    Shape {
        rule: Rule::SaysTrue,
        a: Use::Fact,
        b: Use::Link,
        c: Use::Unused,
    },
    Shape {
        rule: Rule::SaysFalse,
        a: Use::Fact,
        b: Use::Unused,
        c: Use::Unused,
    },
    Shape {
        rule: Rule::SpeaksForTrue,
        a: Use::Fact,
        b: Use::Link,
        c: Use::Unused,
    },
    Shape {
        rule: Rule::SpeaksForFalse,
        a: Use::Fact,
        b: Use::Unused,
        c: Use::Unused,
    },
    Shape {
        rule: Rule::BothLinked,
        a: Use::Link,
        b: Use::Unused,
        c: Use::Unused,
    },
    Shape {
        rule: Rule::QuotingLinked,
        a: Use::Link,
        b: Use::Unused,
        c: Use::Unused,
    },
    Shape {
        rule: Rule::IntoBoth,
        a: Use::Link,
        b: Use::Row,
        c: Use::Unused,
    },
    Shape {
        rule: Rule::IntoQuoting,
        a: Use::Link,
        b: Use::Link,
        c: Use::Row,
    },
    Shape {
        rule: Rule::FactsClash,
        a: Use::Fact,
        b: Use::Fact,
        c: Use::Unused,
    },
    Shape {
        rule: Rule::LinksClash,
        a: Use::Link,
        b: Use::Link,
        c: Use::Unused,
    },
];

// Whether the operand may stand there: an unused one is 0.
fn is_idle(use_of: Use, operand: u16) -> bool
    ensures { result ≡ idle use_of operand }
{
    match use_of {
        Use::Unused => operand == 0,
        _ => true,
    }
}

// The shape of a code, if it is known.
fn shape_numbered(code: u8) -> Option<Shape>
    ensures { result ≡ shape_numbered code }
{
    let place = usize::from(code).checked_sub(1)?;
    SHAPES.get(place).copied()
}

// The shape of a line, if its code is known and its unused operands are 0.
pub fn shape_of(line: Line) -> Option<Shape>
    ensures answer { result ≡ shaped line }
{
    shape_numbered(line.code).filter(|shape| {
        is_idle(shape.a, line.a) && is_idle(shape.b, line.b) && is_idle(shape.c, line.c)
    })
}

// No place at all.
const NO_PLACES: Places = Places {
    facts: 0,
    links: 0,
    worlds: 0,
    forks: 0,
    closes: false,
};

impl Rule {
    // What a line of this rule adds and takes, whatever it cites.
    pub fn takes(self) -> Places
        ensures answer { result ≡ takes self }
    {
        match self {
            Rule::CiteRule | Rule::CiteSaying | Rule::Not | Rule::SaysTrue => {
                Places {
                    facts: 1,
                    ..NO_PLACES
                }
            }
            Rule::AndTrue => Places {
                facts: 2,
                ..NO_PLACES
            },
            Rule::AndFalse => Places {
                facts: 1,
                forks: 1,
                ..NO_PLACES
            },
            Rule::SaysFalse => Places {
                facts: 1,
                links: 1,
                worlds: 1,
                ..NO_PLACES
            },
            Rule::SpeaksForTrue | Rule::IntoBoth | Rule::IntoQuoting => Places {
                links: 1,
                ..NO_PLACES
            },
            Rule::SpeaksForFalse => Places {
                links: 2,
                worlds: 2,
                ..NO_PLACES
            },
            Rule::BothLinked => Places {
                links: 1,
                forks: 1,
                ..NO_PLACES
            },
            Rule::QuotingLinked => Places {
                links: 2,
                worlds: 1,
                ..NO_PLACES
            },
            Rule::FactsClash | Rule::LinksClash => Places {
                closes: true,
                ..NO_PLACES
            },
        }
    }
}
