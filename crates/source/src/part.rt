// Sources whose bytes lie in memory and can be handed out.
ghost use Rattle.source.specs.Bytes.{HandsOut};

use crate::plain::Plain;
use crate::source::Source;
use crate::window::Window;

// A source that can also hand out a part of its bytes.
pub trait PartSource: Source {
    // The `count` bytes from `start`, exactly when the source has them.
    fn part(&self, start: u64, count: u64) -> Option<&[u8]>
        ensures { HandsOut (Self.Source.bytes self.now) start count result };
}

impl<'a> PartSource for Plain<'a> {
    fn part(&self, start: u64, count: u64) -> Option<&[u8]> {
        let end = start.checked_add(count)?;
        self.0.get(start as usize..end as usize)
    }
}

impl<S: PartSource> PartSource for &S {
    fn part(&self, start: u64, count: u64) -> Option<&[u8]> {
        (**self).part(start, count)
    }
}

impl<S: PartSource> PartSource for Window<S> {
    fn part(&self, start: u64, count: u64) -> Option<&[u8]> {
        if !self.has(start, count) {
            return None;
        }
        // An empty part may begin at the very end, past which the sum could not be taken.
        if count == 0 {
            return Some(&[]);
        }
        self.source.part(self.start + start, count)
    }
}
