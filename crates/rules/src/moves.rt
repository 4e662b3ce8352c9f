// What the operands of a line cite, and what a line does to its branch.
use crate::branch::{Fact, Link};
use terms::row::{PrincipalRow, StatementRow};

// What an operand cites.
#[derive(Clone, Copy)]
pub enum Operand {
    // a fact, and the row of its statement
    Fact(Fact, Option<StatementRow>),
    // a link, and the row of its principal
    Link(Link, Option<PrincipalRow>),
    World(u16),
    // a principal's row with its number
    Row(u16, PrincipalRow),
    Serial(u16),
    // the statement row of a live entry
    Entry(u16),
    Unused,
}

// What the three operands of a line cite.
#[derive(Clone, Copy)]
pub struct Cited {
    pub a: Operand,
    pub b: Operand,
    pub c: Operand,
}

// The numbers that the next two worlds of a branch would have.
#[derive(Clone, Copy)]
pub struct NextWorlds {
    pub first: u16,
    pub second: u16,
}

// A case for facts and one for links, where a `Side` could say both: each says in one word what a rule does.
// What a line does: it adds facts and links, some of them at new worlds, or forks the branch, the first alternative going on and the second kept, or closes the branch.
#[derive(Clone, Copy)]
pub enum Move {
    AddFact(Fact),
    AddFacts(Fact, Fact),
    AddLink(Link),
    // a link to a new world, and a fact there
    Successor(Link, Fact),
    // two links through one new world
    Through(Link, Link),
    // two links between two new worlds
    Apart(Link, Link),
    ForkFacts(Fact, Fact),
    ForkLinks(Link, Link),
    Close,
}
