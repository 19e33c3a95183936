// A run of any source.
ghost use Rattle.std.specs.Prelude.{◌≡◌, ◌+◌, ◌-◌, ◌<◌, ◌≤◌, length, MatchResult};
ghost use Rattle.source.specs.Bytes.{run};
ghost use Rattle.source.specs.Refusals.{refusal};
ghost use Rattle.source.specs.declared.refusal.Reason.TheVariants.{WindowPastSource};

use crate::refusal::{Reason, Refusal};
use crate::source::Source;

#[derive(Clone, Copy, Drop)]
pub struct Window<S: Source> {
    pub(crate) source: S,
    pub(crate) start: u64,
    pub(crate) end: u64,
}

impl<S: Source + Drop> Window<S> {
    // The `count` bytes from `start`; refused at `start` when they pass the source.
    pub fn new(source: S, start: u64, count: u64) -> Result<Window<S>, Refusal>
        ensures { MatchResult result (λ w. (w.source ≡ source) × (w.start ≡ start) × (w.end ≡ start + count) × (start + count ≤ length (S.Source.bytes source))) (λ e. (e ≡ refusal WindowPastSource start) × (length (S.Source.bytes source) < start + count)) }
    {
        if !source.has(start, count) {
            return Err(Reason::WindowPastSource.at(start));
        }
        Ok(Window {
            source,
            start,
            end: start + count,
        })
    }
}

// The meaning is right for every value of the fields, so that no invariant is wanted.
impl<S: Source> Source for Window<S> {
    ghost bytes = { λ w. run w.start (w.end - w.start) (S.Source.bytes w.source) };

    fn len(&self) -> u64 {
        let most = self.end.saturating_sub(self.start);
        most.min(self.source.len().saturating_sub(self.start))
    }

    fn byte(&self, p: u64) -> Option<u8> {
        let most = self.end.saturating_sub(self.start);
        if p < most {
            self.source.byte(self.start + p)
        } else {
            None
        }
    }
}
