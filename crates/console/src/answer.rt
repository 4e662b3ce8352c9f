// What the console answers to a line that was done.
use book::entry::Entry;

#[derive(Drop)]
pub enum Answer {
    Opened(u32),
    At(u32),
    Row(u16),
    Filed,
    Struck,
    Live(Vec<Entry>),
}
