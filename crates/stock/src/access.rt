// One access: what is done to which word with which value.
// The kind stays a number, as the caller gave it, since a number that is no kind's must be declined as such.
#[derive(Clone, Copy, PartialEq, Eq)]
pub struct Access<V> {
    pub kind: u8,
    pub word: u32,
    pub value: V,
}
