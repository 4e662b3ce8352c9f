// What a gate keeps.
use terms::names::Names;

// A gate over any book. The fitter gives each gate a number of its own.
// Clauses see it by `state` and no Model, which was tried on the console: what a book means holds functions, and the value of a view may not.
#[derive(Clone, Copy, Drop)]
pub struct Gate<B> {
    pub(crate) number: u32,
    pub(crate) names: Names,
    pub(crate) book: B,
}
