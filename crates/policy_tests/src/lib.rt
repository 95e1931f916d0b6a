// Examples of what the crate policy does, each proved safe and then run.
#![tactic(auto)]

#[cfg(test)]
mod gates;
#[cfg(test)]
mod managers;
#[cfg(test)]
mod maps;
#[cfg(test)]
mod packing;
