// What a person is told of a library. Functions here gather the facts of a line, each proved
// equal to what the file says, and the lines know how to print themselves. Below stand the
// crates that read; above, the programs, which only choose what to print, and ask here how much
// room a library wants.
#![tactic(auto)]

pub mod canonical;
pub mod cpu;
pub mod map;
pub mod member;
pub mod room;
pub mod section;
pub mod segment;
pub mod shown;
pub mod symbol;
