// A line for each segment.
use sections::record::SegmentRecord;
use std::fmt;

// A segment's record, as it is printed.
#[derive(Clone, Copy)]
pub struct SegmentLine(pub SegmentRecord);

impl fmt::Display for SegmentLine {
    fn fmt<W: fmt::Write>(&self, f: &mut fmt::Formatter<W>) -> fmt::Result {
        let r = self.0;
        write!(
            f,
            "{:>7}  {:>7}  {:>8}  {:>7}",
            r.place,
            r.first,
            r.count,
            u8::from(r.wrapped)
        )
    }
}
