// Doing the lines of a job at the console's gates.
ghost use Rattle.std.specs.Prelude.{◌≡◌, ◌<◌, [], length, Some, IfSome};
ghost use Rattle.job.specs.Commands.{answered, meant, reading};
ghost use Rattle.console.specs.Deeds.{reply};
ghost use Rattle.console.specs.Desks.{desk, desk_of, place_of, Admits, Opens, turn_reply, turned, AtGate, Heeded, answered_as};
ghost use Rattle.console.specs.Piles.{pile_state};
ghost use Rattle.console.specs.Openings.{opened_by};

use crate::answer::Answer;
use crate::console::Console;
use crate::deed::act;
use crate::opening::{Pile, open_gate};
use crate::refusal::{Fault, Refusal};
use gate::gate::Gate;
use job::{Command, Deed, Opening, Unreadable, read_line};
use std::alloc::Global;

// No more gates than this are open in one job.
const GATES: usize = 8;

// Where the gate with this number stands among the open ones.
fn place_of(gates: &[Gate<Pile>], number: u32) -> Option<usize>
    ensures answer { result ≡ place_of number gates.now }
    ensures within { IfSome result (λ i. i < length gates.now) }
{
    gates.iter().position(|gate| gate.number() == number)
}

impl Console {
    // A console with no gate open.
    pub fn new(heap: Global) -> Console
        ensures desk { desk_of result ≡ desk [] 0 }
    {
        Console {
            heap,
            gates: Vec::new(heap),
            current: 0,
        }
    }

    // Takes a gate in and makes it current.
    fn admit(&mut self, gate: Gate<Pile>) -> Result<Answer, Refusal>
        ensures did { Admits (desk_of self.old) (pile_state gate) (reply result) (desk_of self.new) }
    {
        let number = gate.number();
        let place = self.gates.len();
        self.gates.push(gate)?;
        self.current = place;
        Ok(Answer::Opened(number))
    }

    // Opens the gate that an opening asks for and makes it current.
    #[tactic(auto, using(crate::proofs::DeskLaws::opens_already, crate::proofs::DeskLaws::opens_ninth, crate::proofs::DeskLaws::opens_denied, crate::proofs::DeskLaws::opens_made))]
    fn open(&mut self, opening: Opening) -> Result<Answer, Refusal>
        ensures did { Opens (desk_of self.old) opening.entry.gate (opened_by opening.entry) (reply result) (desk_of self.new) }
    {
        if place_of(&self.gates, opening.gate).is_some() {
            return Err(Fault::OpenAlready.into());
        }
        if self.gates.len() >= GATES {
            return Err(Fault::NinthGate.into());
        }
        // A match, and no `?`, which would first blank a whole gate's place for the denial: a denied opening took longer by a fifth to a third.
        match open_gate(opening) {
            Ok(gate) => self.admit(gate),
            Err(denial) => Err(denial.into()),
        }
    }

    // Makes an open gate current.
    #[tactic(auto, using(crate::proofs::DeskLaws::place_on_desk))]
    fn turn(&mut self, number: u32) -> Result<Answer, Refusal>
        ensures answer { reply result ≡ turn_reply (desk_of self.old) number }
        ensures after { desk_of self.new ≡ turned (desk_of self.old) number }
    {
        self.current = place_of(&self.gates, number).ok_or(Fault::NotOpen)?;
        Ok(Answer::At(number))
    }

    // Does a deed at the current gate.
    #[tactic(auto, using(crate::proofs::DeskLaws::at_state))]
    fn at_gate(&mut self, deed: Deed) -> Result<Answer, Refusal>
        ensures did { AtGate (desk_of self.old) deed (reply result) (desk_of self.new) }
    {
        let gate = self.gates.get_mut(self.current).ok_or(Fault::NoGate)?;
        act(self.heap, gate, deed)
    }

    // Does what was read, if it is a command.
    fn obey(&mut self, read: Result<Command, Unreadable>) -> Result<Answer, Refusal>
        ensures heeded { Heeded (desk_of self.old) (answered (meant read.entry)) (Some (reply result)) (desk_of self.new) }
    {
        match read? {
            Command::Open(opening) => self.open(opening),
            Command::At(number) => self.turn(number),
            Command::Deed(deed) => self.at_gate(deed),
        }
    }

    // Does one line of a job, without its newline; a silent line has no answer.
    pub fn line(&mut self, line: &[u8]) -> Option<Result<Answer, Refusal>>
        ensures heeded { Heeded (desk_of self.old) (reading line.now) (answered_as result) (desk_of self.new) }
    {
        Some(self.obey(read_line(line)?))
    }
}
