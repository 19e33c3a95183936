// The caller's bytes as a source.
use crate::source::Source;

#[derive(Clone, Copy)]
pub struct Plain<'a>(pub &'a [u8]);

impl<'a> Source for Plain<'a> {
    ghost bytes = { λ s. s.0.now };

    fn len(&self) -> u64 {
        self.0.len() as u64
    }

    fn byte(&self, p: u64) -> Option<u8> {
        self.0.get(p as usize).copied()
    }
}
