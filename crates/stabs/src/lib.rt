// Stabs: what a debugging symbol means to the object map, and the map's cursor, which goes from stab
// to stab. Below stand symbols and their names; above, the reading of a library.
#![tactic(auto)]

pub mod cursor;
pub mod map;
pub mod split;
pub mod stab;
