// All live entries of a gate's book.
ghost use Rattle.std.specs.Prelude.{◌≡◌, IfOk};
ghost use Rattle.gate.specs.Listings.{all_live};

use book::entry::Entry;
use book::filing::Book;
use book::register::Register;
use gate::gate::Gate;
use std::alloc::{AllocError, Global};

// The live entries in rising serial order.
pub(crate) fn live_entries<B: Book>(heap: Global, gate: &Gate<B>) -> Result<Vec<Entry>, AllocError>
    ensures entries { IfOk result (λ v. v.items ≡ all_live (B.live gate.now.book)) }
{
    gate.entries().collect(heap)
}
