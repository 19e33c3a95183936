// The caller's bytes and then zeros, up to a stated length.
ghost use Rattle.std.specs.Prelude.{◌≡◌, ◌-◌, ◌<◌, ◌≤◌, ◌++◌, length, replicate, MatchResult};
ghost use Rattle.source.specs.Bytes.{padded};
ghost use Rattle.source.specs.Refusals.{refusal};
ghost use Rattle.source.specs.declared.refusal.Reason.TheVariants.{LengthOutOfRange};

use crate::refusal::{Reason, Refusal};
use crate::source::Source;

#[derive(Clone, Copy)]
pub struct Padded<'a> {
    head: &'a [u8],
    total: u64,
}

impl<'a> Padded<'a> {
    // The head and zeros up to `total` bytes; refused when the head alone is longer.
    pub fn new(head: &'a [u8], total: u64) -> Result<Padded<'a>, Refusal>
        ensures { MatchResult result (λ s. (s.head.now ≡ head.now) × (s.total ≡ total) × (length head.now ≤ total)) (λ e. (e ≡ refusal LengthOutOfRange 0) × (total < length head.now)) }
    {
        if total < head.len() as u64 {
            return Err(Reason::LengthOutOfRange.at(0));
        }
        Ok(Padded { head, total })
    }
}

impl<'a> Source for Padded<'a> {
    ghost bytes = { λ s. padded s.head.now s.total };

    fn len(&self) -> u64 {
        self.total.max(self.head.len() as u64)
    }

    fn byte(&self, p: u64) -> Option<u8> {
        let zero = (p < self.total).then_some(0);
        self.head.get(p as usize).copied().or(zero)
    }
}
