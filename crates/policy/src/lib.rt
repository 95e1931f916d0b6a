// The parts of a hybrid transactional memory that can be exchanged, and the records they speak of.
// Each kind of part is a trait: its ghost member says what it decides, its laws what the memory relies on.
#![tactic(auto)]

pub mod contention;
pub mod gate;
pub mod map;
pub mod orec;
pub mod pack;
pub mod priority;
