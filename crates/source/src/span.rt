// Runs of bytes of a source.

// A run of bytes: where it starts, and how many bytes it has.
#[derive(Clone, Copy, PartialEq, Eq, Debug, Default)]
pub struct Span {
    pub start: u64,
    pub len: u64,
}
