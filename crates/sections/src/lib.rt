// Sections: what kind of thing one holds, which names a query means, and where its bytes begin in
// a file that may be longer than 4 GiB. Below stand `fields`, which reads a section's numbers, and
// `list`; above it stands the walk over the load commands, which lists the sections of each segment.
#![tactic(auto)]

pub mod kind;
pub mod listing;
pub mod offset;
pub mod query;
pub mod record;
mod section_iter;
