// Lists of records in memory that the caller lends. One text serves every kind of record:
// a list is a slice of slots and a count of those in use. Below it stands only `source`,
// for the refusal when no slot is free; above it, whatever lists what it finds in a library.
#![tactic(auto)]

pub mod list;
