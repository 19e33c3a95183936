// Sources of bytes. A source answers how many bytes it has and which byte stands at a place;
// all that stands above reads a library through these two questions, whatever the bytes are
// made of: a slice, a slice with zeros after it, a run of another source, two sources in a row.
// Refusals live here too, since a source is the lowest thing that refuses. Nothing stands below.
#![tactic(auto)]

pub mod join;
pub mod padded;
pub mod part;
pub mod plain;
pub mod refusal;
pub mod source;
pub mod span;
pub mod window;
