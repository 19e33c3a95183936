// Examples that are run: edges of the sources, lists, fields and universal files, with what the
// rules say of each. A crate of its own, so that the crates under test are proved once.
#![tactic(auto)]

#[cfg(test)]
mod fats;
#[cfg(test)]
mod lists;
#[cfg(test)]
mod numbers;
#[cfg(test)]
mod records;
#[cfg(test)]
mod sources;
#[cfg(test)]
mod walks;
