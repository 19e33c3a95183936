// The records of the object map.
use source::span::Span;

// An object file: its path, and its member where the path is that of an archive.
#[derive(Clone, Copy, PartialEq, Eq, Debug, Default)]
pub struct MapFile {
    pub path: Span,
    pub member: Option<Span>,
}

// A function or a static variable: its address, size and name, and the number, from 0, of the
// object file that it came from.
#[derive(Clone, Copy, PartialEq, Eq, Debug, Default)]
pub struct MapEntry {
    pub address: u64,
    pub size: u64,
    pub name: Span,
    pub file: u64,
}
