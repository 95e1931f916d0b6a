// What every call of the memory answers and leaves, and what holds of every run: definitions, and functions whose contracts are the theorems.
#![tactic(auto)]

pub mod descriptor;
pub mod figures;
pub mod kinds;
pub mod runs;
pub mod shown;
pub mod sound;
