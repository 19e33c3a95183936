// Symbols: where a symbol's name stands, and what a symbol that is no stab answers. Below stand the
// records of symbols and the list of sections; above, the reading of a library.
#![tactic(auto)]

pub mod name;
pub mod symbol;
pub mod table;
