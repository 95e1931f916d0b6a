// What is printed of a file and of a line by itself, letter for letter.
#![tactic(auto)]

#[cfg(test)]
mod files;
#[cfg(test)]
mod lines;
