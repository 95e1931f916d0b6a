// Both hardware paths beside the meaning: one result on the same transactions, at their limits and at every place of a fault.
#![tactic(auto)]

#[cfg(test)]
mod bench;
#[cfg(test)]
mod faults;
#[cfg(test)]
mod limits;
#[cfg(test)]
mod lots;
