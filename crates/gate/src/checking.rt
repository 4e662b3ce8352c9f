// Checking a proof file at a gate.
ghost use Rattle.std.specs.Prelude.{◌≡◌, length};
ghost use Rattle.trail.specs.Places.{AllBlank};
ghost use Rattle.rules.specs.Branches.{blank_fact, blank_link, blank_fork};
ghost use Rattle.soundness.specs.Walking.{stated};
ghost use Rattle.tableau.specs.Passing.{Exactly, Grounded};
ghost use Rattle.gate.specs.Checking.{given_at, checking};
ghost use Rattle.gate.specs.State.{state};

use crate::gate::Gate;
use book::filing::Book;
use book::register::Register;
use denials::denial::Denial;
use rules::branch::{Fact, Fork, Link};
use tableau::proving::walk;

impl<B: Book> Gate<B> {
    // Checks a proof file with three lent tables, of which the first 4,096 places count, and issues nothing. The tables come one by one, as callers hold them. Answers the row of the request if the file keeps the rules, or the first denial; the tables are blank afterwards, every place of them.
    pub fn check(
        &self,
        file: &[u8],
        facts: &mut [Fact],
        links: &mut [Link],
        forks: &mut [Fork],
    ) -> Result<u16, Denial>
        ensures answer { result ≡ checking (state B.Book self.now) (length facts.old) (length links.old) (length forks.old) file.now }
        ensures exactly { Exactly (stated (length facts.old) (length links.old) (length forks.old)) (given_at (state B.Book self.now)) file.now result }
        ensures follows { Grounded (given_at (state B.Book self.now)) result }
        ensures blank_facts { AllBlank blank_fact facts.new }
        ensures blank_links { AllBlank blank_link links.new }
        ensures blank_forks { AllBlank blank_fork forks.new }
    {
        walk(&self.names, &self.book, file, facts, links, forks)
    }
}
