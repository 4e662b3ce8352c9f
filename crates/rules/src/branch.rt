// What a branch of the tableau holds: facts and links, and the forks at which it can still go another way.
ghost use Rattle.std.specs.Prelude.{◌≡◌};
ghost use Rattle.rules.specs.Branches.{fact, link, other};

use std::ops::Not;

// Whether a fact or a link is asserted or denied.
#[derive(Clone, Copy)]
pub enum Sign {
    True,
    False,
}

// The other sign.
impl Not for Sign {
    type Output = Sign;

    ghost not_gives = { λ sign result. result ≡ other sign };

    fn not(self) -> Sign {
        match self {
            Sign::True => Sign::False,
            Sign::False => Sign::True,
        }
    }
}

// A statement, by its row, that is true or false at a world.
#[derive(Clone, Copy)]
pub struct Fact {
    pub sign: Sign,
    pub row: u16,
    pub world: u16,
}

// A pair of worlds that is, or is not, among those of a principal, by its row.
#[derive(Clone, Copy)]
pub struct Link {
    pub sign: Sign,
    pub row: u16,
    pub from: u16,
    pub to: u16,
}

impl Fact {
    pub fn new(sign: Sign, row: u16, world: u16) -> Fact
        ensures answer { result ≡ fact sign row world }
    {
        Fact { sign, row, world }
    }
}

impl Link {
    pub fn new(sign: Sign, row: u16, from: u16, to: u16) -> Link
        ensures answer { result ≡ link sign row «from» to }
    {
        Link {
            sign,
            row,
            from,
            to,
        }
    }
}

// One of the two alternatives of a fork.
#[derive(Clone, Copy)]
pub enum Side {
    Fact(Fact),
    Link(Link),
}

// How many facts, links and worlds the branch had before the line that forked it, and the alternative that is kept for later.
#[derive(Clone, Copy)]
pub struct Fork {
    pub facts: u16,
    pub links: u16,
    pub worlds: u16,
    pub kept: Side,
}
