// One source after another.
ghost use Rattle.std.specs.Prelude.{◌≡◌, ◌+◌, ◌^◌, ◌<◌, ◌≤◌, ◌++◌, length, MatchResult};
ghost use Rattle.source.specs.Bytes.{joined};
ghost use Rattle.source.specs.Refusals.{refusal};
ghost use Rattle.source.specs.declared.refusal.Reason.TheVariants.{LengthOutOfRange};

use crate::refusal::{Reason, Refusal};
use crate::source::Source;

#[derive(Clone, Copy, Drop)]
pub struct Join<A: Source, B: Source> {
    front: A,
    back: B,
}

impl<A: Source + Drop, B: Source + Drop> Join<A, B> {
    // The bytes of `front` and then those of `back`; refused when they are 2^64 or more.
    pub fn new(front: A, back: B) -> Result<Join<A, B>, Refusal>
        ensures { MatchResult result (λ j. (j.front ≡ front) × (j.back ≡ back) × (length (A.Source.bytes front) + length (B.Source.bytes back) < 2 ^ 64) × (joined (A.Source.bytes front) (B.Source.bytes back) ≡ A.Source.bytes front ++ B.Source.bytes back)) (λ e. (e ≡ refusal LengthOutOfRange 0) × (2 ^ 64 ≤ length (A.Source.bytes front) + length (B.Source.bytes back))) }
    {
        match front.len().checked_add(back.len()) {
            Some(_) => Ok(Join { front, back }),
            None => Err(Reason::LengthOutOfRange.at(0)),
        }
    }
}

// The whole of both, where that has a length: `new` makes no other.
impl<A: Source, B: Source> Source for Join<A, B> {
    ghost bytes = { λ j. joined (A.Source.bytes j.front) (B.Source.bytes j.back) };

    fn len(&self) -> u64 {
        self.front.len().saturating_add(self.back.len())
    }

    fn byte(&self, p: u64) -> Option<u8> {
        let n = self.front.len();
        if p < n {
            self.front.byte(p)
        } else if p < u64::MAX {
            self.back.byte(p - n)
        } else {
            None
        }
    }
}
