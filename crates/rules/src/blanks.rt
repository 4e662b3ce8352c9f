// The blank fact, link and fork, which stand at the empty places of a trail.
ghost use Rattle.rules.specs.Branches.{blank_fact, blank_link, blank_fork};

use crate::branch::{Fact, Fork, Link, Side, Sign};
use trail::blank::Blank;

// Constants, so that whoever lends tables can fill arrays with them.
pub const BLANK_FACT: Fact = Fact {
    sign: Sign::False,
    row: 0,
    world: 0,
};

pub const BLANK_LINK: Link = Link {
    sign: Sign::False,
    row: 0,
    from: 0,
    to: 0,
};

pub const BLANK_FORK: Fork = Fork {
    facts: 0,
    links: 0,
    worlds: 0,
    kept: Side::Fact(BLANK_FACT),
};

impl Blank for Fact {
    ghost blank = { blank_fact };

    fn blank() -> Fact {
        BLANK_FACT
    }
}

impl Blank for Link {
    ghost blank = { blank_link };

    fn blank() -> Link {
        BLANK_LINK
    }
}

impl Blank for Fork {
    ghost blank = { blank_fork };

    fn blank() -> Fork {
        BLANK_FORK
    }
}
