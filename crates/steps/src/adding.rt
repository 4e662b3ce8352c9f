// Adding to the trails of a walk, and going back on them.
ghost use Rattle.std.specs.Prelude.{◌≡◌, ℕ, ◌+◌, ◌<◌, ◌≤◌, [], ◌∷◌, ◌++◌, length, MatchOption};
ghost use Rattle.trail.specs.Trails.{SamePlaces, entries_of, capacity_of};
ghost use Rattle.rules.specs.Branches.{with_side, back};
ghost use Rattle.citing.specs.Open.{branch_of};
ghost use Rattle.steps.specs.Tables.{SameBranch, SideRoom, KeptRoom, forks_of};

use citing::branch::OpenBranch;
use rules::branch::{Fork, Side};
use trail::blank::Blank;
use trail::trail::Trail;

// Adds an entry where there is room for it.
pub(crate) fn add<T: Blank>(trail: &mut Trail<T>, entry: T)
    requires { length (entries_of trail.old) < capacity_of trail.old }
    ensures after { entries_of trail.new ≡ entries_of trail.old ++ (entry ∷ []) }
    ensures places { SamePlaces trail.old.places trail.new.places }
{
    let _ = trail.push(entry);
}

// Adds two entries where there is room for both.
pub(crate) fn add_two<T: Blank>(trail: &mut Trail<T>, first: T, second: T)
    requires { length (entries_of trail.old) + 1 < capacity_of trail.old }
    ensures after { entries_of trail.new ≡ entries_of trail.old ++ (first ∷ second ∷ []) }
    ensures places { SamePlaces trail.old.places trail.new.places }
{
    add(trail, first);
    add(trail, second);
}

// Adds one alternative of a fork.
pub(crate) fn add_side(branch: &mut OpenBranch, side: Side)
    requires { SideRoom branch.old side }
    ensures after { branch_of branch.new ≡ with_side (branch_of branch.old) side }
    ensures same { SameBranch branch.old branch.new }
{
    match side {
        Side::Fact(fact) => add(&mut branch.facts, fact),
        Side::Link(link) => add(&mut branch.links, link),
    }
}

// Takes the latest fork off.
#[tactic(auto, using(crate::proofs::Forks::latest_of))]
pub(crate) fn latest(forks: &mut Trail<Fork>) -> Option<Fork>
    ensures answer { MatchOption result ((forks_of forks.old ≡ []) × (forks_of forks.new ≡ [])) (λ f. forks_of forks.old ≡ f ∷ forks_of forks.new) }
    ensures places { SamePlaces forks.old.places forks.new.places }
{
    let last = forks.len().saturating_sub(1);
    let fork = forks.get(last);
    forks.cut(last);
    fork
}

// Cuts the branch back to the counts of a fork, and adds the alternative that it kept.
pub(crate) fn go_back(branch: &mut OpenBranch, fork: Fork)
    requires worlds { fork.worlds ≤ 1024 }
    requires room { KeptRoom branch.old fork fork.kept }
    ensures after { branch_of branch.new ≡ back (branch_of branch.old) fork }
    ensures same { SameBranch branch.old branch.new }
{
    branch.facts.cut(fork.facts as usize);
    branch.links.cut(fork.links as usize);
    branch.worlds = fork.worlds;
    add_side(branch, fork.kept);
}
