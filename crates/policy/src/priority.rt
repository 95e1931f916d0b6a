// What a contention manager compares of two transactions.
#[derive(Clone, Copy, PartialEq, Eq)]
pub struct Priority {
    pub class: u8,
    pub start: u64,
    pub thread: u8,
}
