// How a hardware transaction is run: the paths, each with its own limit, all with one meaning.
#![tactic(auto)]

mod overlay;
pub mod path;
pub mod places;
pub mod redo;
pub mod undo;
