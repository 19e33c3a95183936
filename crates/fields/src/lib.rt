// What stands at the places of a Mach-O file: numbers in either byte order, names of sixteen
// bytes, and the records of Apple's headers, at the two widths. Everything is read through a
// source, exactly when enough bytes remain. Below it stands `source`; above it, whatever gives
// the records a meaning.
#![tactic(auto)]

pub mod endian;
pub mod fat;
pub mod header;
pub mod kind;
pub mod load_command;
pub mod name;
pub mod number;
pub mod section;
pub mod segment;
pub mod symbol;
pub mod width;
