// Doing what a line asks of the current gate.
ghost use Rattle.std.specs.Prelude.{◌≡◌};
ghost use Rattle.gate.specs.State.{state};
ghost use Rattle.console.specs.Deeds.{reply, Replies, deed_left};

use crate::answer::Answer;
use crate::listing::live_entries;
use crate::refusal::Refusal;
use book::filing::Book;
use book::register::Register;
use gate::gate::Gate;
use job::Deed;
use std::alloc::Global;

// Does the deed at the gate and answers what came of it.
pub(crate) fn act<B: Book>(heap: Global, gate: &mut Gate<B>, deed: Deed) -> Result<Answer, Refusal>
    ensures answer { Replies deed (state B.Book gate.old) (reply result) }
    ensures after { state B.Book gate.new ≡ deed_left deed (state B.Book gate.old) }
{
    match deed {
        Deed::Principal(n) => Ok(Answer::Row(gate.principal(n.form, n.x, n.y)?)),
        Deed::Statement(n) => Ok(Answer::Row(gate.statement(n.form, n.x, n.y)?)),
        Deed::File {
            serial,
            standing,
            row,
        } => {
            gate.file(serial, standing, row)?;
            Ok(Answer::Filed)
        }
        Deed::Strike(serial) => {
            gate.strike(serial)?;
            Ok(Answer::Struck)
        }
        Deed::List => Ok(Answer::Live(live_entries(heap, gate)?)),
    }
}
