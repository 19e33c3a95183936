// Runs of calls. A run opens a library and makes any calls, in any order and number, each on what the
// last left; the contracts here say what is right after every call of every run. Below stands the
// reading of a library; above, programs.
#![tactic(auto)]

pub mod both;
pub mod calls;
pub mod driver;
pub mod laws;
pub mod perform;
