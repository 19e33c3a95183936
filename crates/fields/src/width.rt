// The two widths of a file.
ghost use Rattle.std.specs.Prelude.{◌≡◌, Bool, true, false};
ghost use Rattle.fields.specs.Numbers.{field};
ghost use Rattle.fields.specs.Records.{at_width};

use crate::number::Fields;
use source::source::Source;

// What differs between a file of 32 bits and one of 64. Every record is read by one text,
// which asks the width for the sizes and places that differ.
pub trait Width {
    ghost wide: { Bool };

    // The first of two figures at 32 bits, the second at 64.
    fn either<T: Drop>(narrow: T, broad: T) -> T
        ensures { result ≡ at_width wide narrow broad };

    // The number of a whole word at p: four bytes or eight.
    fn word_at<S: Source>(f: Fields<S>, p: u64) -> Option<u64>
        ensures { result ≡ field (S.Source.bytes f.entry.source.now) p (at_width wide 4 8) f.entry.endian };
}

#[derive(Clone, Copy, PartialEq, Eq, Debug)]
pub struct Bits32;

#[derive(Clone, Copy, PartialEq, Eq, Debug)]
pub struct Bits64;

impl Width for Bits32 {
    ghost wide = { false };

    fn either<T: Drop>(narrow: T, _broad: T) -> T {
        narrow
    }

    fn word_at<S: Source>(f: Fields<S>, p: u64) -> Option<u64> {
        f.u32_at(p).map(u64::from)
    }
}

impl Width for Bits64 {
    ghost wide = { true };

    fn either<T: Drop>(_narrow: T, broad: T) -> T {
        broad
    }

    fn word_at<S: Source>(f: Fields<S>, p: u64) -> Option<u64> {
        f.u64_at(p)
    }
}
