// Examples that are run: whole runs of calls on a library with a segment beyond 4 GiB and stabs, with
// what the rules say of each answer and record, and the same run on the library in two halves.
#![tactic(auto)]

#[cfg(test)]
mod runs;
