// Whether two answers or two records say the same.
ghost use Rattle.std.specs.Prelude.{◌≡◌, Decides};

use replay::calls::Answer;
use sections::record::{SectionRecord, SegmentRecord};
use stabs::map::{MapEntry, MapFile};
use symbols::symbol::Symbol;

// Values of which it can be said whether two are one and the same. `==` under a bound says less: only
// that the type calls them equal.
pub trait Same {
    fn same(&self, other: &Self) -> bool
        ensures { Decides result (self.now ≡ other.now) };
}

impl Same for SegmentRecord {
    fn same(&self, other: &SegmentRecord) -> bool {
        *self == *other
    }
}

impl Same for SectionRecord {
    fn same(&self, other: &SectionRecord) -> bool {
        *self == *other
    }
}

// Field by field: the check stops at a limit of its cases under one `==`.
impl Same for Symbol {
    fn same(&self, other: &Symbol) -> bool {
        self.address == other.address
            && self.section == other.section
            && self.kind == other.kind
            && self.scope == other.scope
            && self.weak == other.weak
    }
}

impl Same for MapFile {
    fn same(&self, other: &MapFile) -> bool {
        *self == *other
    }
}

impl Same for MapEntry {
    fn same(&self, other: &MapEntry) -> bool {
        *self == *other
    }
}

impl<T: Same> Same for Option<T> {
    fn same(&self, other: &Option<T>) -> bool {
        match (self, other) {
            (Some(a), Some(b)) => a.same(b),
            (None, None) => true,
            _ => false,
        }
    }
}

// Case by case, for that limit.
impl Same for Answer {
    fn same(&self, other: &Answer) -> bool {
        match (*self, *other) {
            (Answer::Stepped(a), Answer::Stepped(b)) => a == b,
            (Answer::Finished, Answer::Finished) => true,
            (Answer::Listed(a), Answer::Listed(b)) => a == b,
            (Answer::Found(a), Answer::Found(b)) => a.same(&b),
            (Answer::Known(a), Answer::Known(b)) => a.same(&b),
            (Answer::Named(a), Answer::Named(b)) => a == b,
            (Answer::Mapped(a), Answer::Mapped(b)) => a == b,
            (Answer::Refused(a), Answer::Refused(b)) => a == b,
            (Answer::Skipped, Answer::Skipped) => true,
            _ => false,
        }
    }
}
