// What a proof rests on.
use terms::names::Names;

// The names, and the book with its live entries.
#[derive(Drop)]
pub struct Given<'a, R> {
    pub names: &'a Names,
    pub book: &'a R,
}
