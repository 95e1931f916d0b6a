// Stock values, and what an access makes of them.
#![tactic(auto)]

pub mod access;
pub mod compute;
pub mod count;
pub mod fault;
pub mod kind;
pub mod lot;
pub mod value;
