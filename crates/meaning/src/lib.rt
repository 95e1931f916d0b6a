// Hardware transactions by their meaning, with what is asked of them first.
#![tactic(auto)]

pub mod answer;
pub mod check;
pub mod log;
pub mod perform;
pub mod slots;
mod step;
pub mod undo;
