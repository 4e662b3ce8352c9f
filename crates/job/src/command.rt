// What a line of a job can say.

// A command. Its numbers are within the limits of their types, and a gate number is any `u32`.
#[derive(Clone, Copy)]
pub enum Command<'a> {
    At(u32),
    Open(Opening<'a>),
    Deed(Deed),
}

// What a line asks of the current gate. Forms and standings stay numbers: a line may give any, and the gate denies what is none.
#[derive(Clone, Copy)]
pub enum Deed {
    Principal(Naming),
    Statement(Naming),
    File { serial: u16, standing: u8, row: u16 },
    Strike(u16),
    List,
}

// The form and the operands of a principal or a statement to be named.
#[derive(Clone, Copy)]
pub struct Naming {
    pub form: u8,
    pub x: u16,
    pub y: u16,
}

// A gate to open, and the book to open it over. `entries` is the text of the entries that the lowest book holds already.
#[derive(Clone, Copy)]
pub struct Opening<'a> {
    pub gate: u32,
    pub layers: Layers<'a>,
    pub ground: Ground,
    pub entries: &'a [u8],
}

// The recall layers over the lowest book, from left to right, each by the text of its serials.
// There are two at most, and a lower one only under an upper one, which a pair of `Option`s or a slice would not say.
// A layer's text runs on to the end of the line; its serials are the numbers before the first word that is none.
#[derive(Clone, Copy)]
pub enum Layers<'a> {
    Bare,
    One(&'a [u8]),
    Two(&'a [u8], &'a [u8]),
}

// The lowest book: a ledger with this many records, or a card, which an `Option` would leave without a name.
#[derive(Clone, Copy)]
pub enum Ground {
    Ledger(u32),
    Card,
}
