// The state of a walk.
ghost use Rattle.soundness.specs.Walking.{ForksFit};
ghost use Rattle.steps.specs.Tables.{limits_of, forks_of, fits_once};

use citing::branch::OpenBranch;
use rules::branch::{Fact, Fork, Link};
use trail::trail::Trail;

// The branch that is walked, the forks that are still to be taken the other way, and whether every branch is closed. Each fork has a place for the alternative that it keeps.
// A flag beside the branch, and no enum: the tables of a complete proof are still there to be blanked.
#[derive(Drop)]
pub struct Tableau<'f, 'l, 'k> {
    pub branch: OpenBranch<'f, 'l>,
    pub forks: Trail<'k, Fork>,
    pub complete: bool,
    pub ghost fit: { ForksFit (limits_of branch forks) (forks_of forks) } by { fits_once (limits_of branch forks) (forks_of forks) },
}

impl<'f, 'l, 'k> Tableau<'f, 'l, 'k> {
    ghost use Rattle.std.specs.Prelude.{◌≡◌, false, []};
    ghost use Rattle.trail.specs.Trails.{SamePlaces, entries_of};

    // A branch with one world and what is on the trails. Forks that are on theirs are cut off.
    pub fn new(
        facts: Trail<'f, Fact>,
        links: Trail<'l, Link>,
        mut forks: Trail<'k, Fork>,
    ) -> Tableau<'f, 'l, 'k>
        ensures facts { result.branch.facts ≡ facts.entry }
        ensures links { result.branch.links ≡ links.entry }
        ensures forks { entries_of result.forks ≡ [] }
        ensures same { SamePlaces forks.entry.places result.forks.places }
        ensures worlds { result.branch.worlds ≡ 1 }
        ensures open { result.complete ≡ false }
    {
        forks.cut(0);
        Tableau {
            branch: OpenBranch {
                facts,
                links,
                worlds: 1,
            },
            forks,
            complete: false,
        }
    }
}
