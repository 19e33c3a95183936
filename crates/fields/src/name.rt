// Names of sixteen bytes at most.
ghost use Rattle.std.specs.Prelude.{◌≤◌};

mod read;

// The bytes of a name field before its first zero. They are copied with their length beside them, in
// memory of the field's size: a reader takes none from the heap, and a name is `Copy`.
#[derive(Clone, Copy, PartialEq, Eq, Debug)]
pub struct Name {
    bytes: [u8; 16],
    len: usize,
    ghost inside: { len ≤ 16 },
}
