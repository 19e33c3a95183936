// The reading of one library, at one width, over any source. A walk is opened, stepped over the
// load commands, and finished; what comes back is a reading, which answers questions. The records go
// into lists that the caller lends. Below stand the crates that know the records; above, programs.
#![tactic(auto)]

mod lists;
pub mod reading;
pub mod state;
pub mod table;
mod treat;
pub mod walk;
