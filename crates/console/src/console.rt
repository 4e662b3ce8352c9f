// The console's gates, and what a line does to them.
use crate::opening::Pile;
use gate::gate::Gate;
use std::alloc::Global;

// The gates that a job has opened, in the order of opening, and which of them is current. That is no Option: while no gate is open, nothing stands at the place, and an Option would be asked once more. Clauses see it by `desk_of`, for the reason that a gate gives.
#[derive(Drop)]
pub struct Console {
    pub(crate) heap: Global,
    pub(crate) gates: Vec<Gate<Pile>>,
    pub(crate) current: usize,
}
