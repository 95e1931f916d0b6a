// What the code of the memory and its rules share of a transaction's descriptor.

// Where a software transaction stands.
#[derive(Clone, Copy, PartialEq, Eq)]
pub enum Status {
    Idle,
    Active,
    Aborted,
    Committed,
}

// A snapshot of an ownership record: the thread and the version seen there.
#[derive(Clone, Copy, PartialEq, Eq)]
pub struct Seen {
    pub thread: u8,
    pub version: u32,
}
