// Doing a move: adding to the branch, forking it, or closing it and going back to the latest fork.
ghost use Rattle.std.specs.Prelude.{◌≡◌, ◌+◌, ◌&&◌, nat_le};

use crate::adding::{add, add_side, add_two, go_back, latest};
use crate::tableau::Tableau;
use rules::branch::{Fork, Side};
use rules::moves::Move;
use rules::table::Places;

// A branch has no more worlds than this.
const WORLDS: u32 = 1024;

// Whether a line finds its places where so many facts, links and forks can still be added. The numbers come one by one, as each trail tells its own.
fn fits_in(places: Places, facts: usize, links: usize, forks: usize, worlds: u16) -> bool
    ensures { result ≡ (nat_le places.facts facts && (nat_le places.links links && (nat_le (worlds + places.worlds) 1024 && nat_le places.forks forks))) }
{
    places.facts as usize <= facts
        && places.links as usize <= links
        && worlds as u32 + places.worlds as u32 <= WORLDS
        && places.forks as usize <= forks
}

impl Tableau<'_, '_, '_> {
    ghost use Rattle.std.specs.Prelude.{◌≡◌, false};
    ghost use Rattle.rules.specs.Branches.{closed, moved, forks as forking};
    ghost use Rattle.rules.specs.Fits.{effect};
    ghost use Rattle.soundness.specs.Walking.{Room, roomy, sizes};
    ghost use Rattle.citing.specs.Open.{branch_of};
    ghost use Rattle.steps.specs.Tables.{SideRoom, forks_of};
    ghost use Rattle.steps.specs.Tableaux.{SameTables, limits, progress};

    // Whether the places that a line takes up are free.
    #[tactic(auto, using(citing::proofs::Same::same_branch, crate::proofs::Same::same_tableau))]
    pub(crate) fn has_room(&mut self, places: Places) -> bool
        ensures answer { result ≡ roomy (limits self.old) (branch_of self.old.branch) (forks_of self.old.forks) places }
        ensures unchanged { self.new ≡ self.old }
    {
        let branch = &mut self.branch;
        let facts = branch.facts.room();
        let links = branch.links.room();
        let worlds = branch.worlds;
        fits_in(places, facts, links, self.forks.room(), worlds)
    }

    // The branch is closed: the latest fork goes, and the branch goes back to it. If no fork was left, the proof is complete.
    fn close(&mut self)
        requires { self.old.complete ≡ false }
        ensures after { progress self.new ≡ closed (branch_of self.old.branch) (forks_of self.old.forks) }
        ensures same { SameTables self.old self.new }
    {
        match latest(&mut self.forks) {
            Some(fork) => go_back(&mut self.branch, fork),
            None => self.complete = true,
        }
    }

    // Forks the branch: one alternative goes on, the other is kept with the counts of facts, links and worlds.
    fn fork(&mut self, goes_on: Side, kept: Side)
        requires open { self.old.complete ≡ false }
        requires kept { SideRoom self.old.branch kept }
        requires room { Room (limits self.old) (branch_of self.old.branch) (forks_of self.old.forks) (sizes (forking goes_on kept)) }
        ensures after { progress self.new ≡ moved (branch_of self.old.branch) (forks_of self.old.forks) (forking goes_on kept) }
        ensures same { SameTables self.old self.new }
    {
        let fork = Fork {
            facts: self.branch.facts.len() as u16,
            links: self.branch.links.len() as u16,
            worlds: self.branch.worlds,
            kept,
        };
        add(&mut self.forks, fork);
        add_side(&mut self.branch, goes_on);
    }

    // Does a move for which there is room.
    pub(crate) fn make(&mut self, movement: Move)
        requires open { self.old.complete ≡ false }
        requires room { Room (limits self.old) (branch_of self.old.branch) (forks_of self.old.forks) (sizes (effect movement)) }
        ensures after { progress self.new ≡ moved (branch_of self.old.branch) (forks_of self.old.forks) (effect movement) }
        ensures same { SameTables self.old self.new }
    {
        let branch = &mut self.branch;
        match movement {
            Move::AddFact(fact) => add(&mut branch.facts, fact),
            Move::AddFacts(first, second) => add_two(&mut branch.facts, first, second),
            Move::AddLink(link) => add(&mut branch.links, link),
            Move::Successor(link, fact) => {
                add(&mut branch.links, link);
                add(&mut branch.facts, fact);
                branch.worlds += 1;
            }
            Move::Through(first, second) => {
                add_two(&mut branch.links, first, second);
                branch.worlds += 1;
            }
            Move::Apart(first, second) => {
                add_two(&mut branch.links, first, second);
                branch.worlds += 2;
            }
            Move::ForkFacts(first, second) => self.fork(Side::Fact(first), Side::Fact(second)),
            Move::ForkLinks(first, second) => self.fork(Side::Link(first), Side::Link(second)),
            Move::Close => self.close(),
        }
    }
}
