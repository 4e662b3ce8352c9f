// What the head of a file holds.

// Behind the mark and the version: the kind of the file, the row of the request, and a count whose meaning depends on the kind.
// The kind stays a byte: which kinds there are is the caller's to say, and an enum here would refuse some.
#[derive(Clone, Copy)]
pub struct Head {
    pub kind: u8,
    pub request: u16,
    pub count: u16,
}
