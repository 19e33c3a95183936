// Examples that are run: symbols, their names and the object map of small libraries, with what the
// rules say of each. A crate of its own, so that the crates under test are proved once.
#![tactic(auto)]

#[cfg(test)]
mod answers;
#[cfg(test)]
mod library;
#[cfg(test)]
mod maps;
