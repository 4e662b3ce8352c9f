// An open branch of the tableau.
ghost use Rattle.std.specs.Prelude.{◌≤◌};

use rules::branch::{Fact, Link};
use trail::trail::Trail;

// Its facts and links, and how many worlds it has: 1,024 at most.
#[derive(Drop)]
pub struct OpenBranch<'f, 'l> {
    pub facts: Trail<'f, Fact>,
    pub links: Trail<'l, Link>,
    pub worlds: u16,
    pub ghost few: { worlds ≤ 1024 },
}
