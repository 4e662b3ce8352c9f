// A line of a proof, and what its operands are used for.

// A code and three operands. The code stays a byte: a file may hold any, and the walk denies those of no rule.
#[derive(Clone, Copy)]
pub struct Line {
    pub code: u8,
    pub a: u16,
    pub b: u16,
    pub c: u16,
}

// What an operand of a line stands for: the number of a fact, a link, a world or a principal's row, a serial of the book, or nothing, and then it is 0.
#[derive(Clone, Copy)]
pub enum Use {
    Fact,
    Link,
    World,
    Row,
    Serial,
    Unused,
}
