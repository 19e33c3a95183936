// Where the bytes of a segment's sections begin. A section stores the low 32 bits of its offset
// only; in a segment that ends beyond 4 GiB the rest follows from the order of the sections. This
// is a refinement of the algorithm that LLVM uses.
ghost use Rattle.std.specs.Prelude.{◌≡◌, ◌%◌, ◌^◌, nat_le};
ghost use Rattle.sections.specs.Offsets.{file_backed, begun, beyond_4gib, least_from, next_start, next_offsets};

use crate::kind::{S_GB_ZEROFILL, S_THREAD_LOCAL_ZEROFILL, S_ZEROFILL, type_of};
use fields::section::Section;

const FOUR_GIB: u64 = 1 << 32;

// Whether a section of these flags has bytes in the file.
pub fn file_backed(flags: u32) -> bool
    ensures { result ≡ file_backed flags }
{
    !matches!(
        type_of(flags),
        S_ZEROFILL | S_GB_ZEROFILL | S_THREAD_LOCAL_ZEROFILL
    )
}

// The cursor over the sections of one segment.
#[derive(Clone, Copy, PartialEq, Eq, Debug)]
pub struct SectionOffsets {
    segment_end: u64,
    previous_end: u64,
    wrapped: bool,
}

// The least number not below x with these low 32 bits, as `overflowing_add` has it.
fn least_from(x: u64, low: u32) -> (u64, bool)
    ensures sum { result.0 ≡ least_from x low % 2 ^ 64 }
    ensures reached { result.1 ≡ nat_le (2 ^ 64) (least_from x low) }
{
    let near = x / FOUR_GIB * FOUR_GIB + u64::from(low);
    near.overflowing_add(if near < x { FOUR_GIB } else { 0 })
}

impl SectionOffsets {
    // Before the first section of a segment.
    pub fn new(fileoff: u64, filesize: u64) -> SectionOffsets
        ensures { result ≡ begun fileoff filesize }
    {
        let (segment_end, wrapped) = fileoff.overflowing_add(filesize);
        SectionOffsets {
            segment_end,
            previous_end: fileoff,
            wrapped,
        }
    }

    // Whether the segment ends beyond 4 GiB, so that a stored offset may not be the whole of it.
    pub(crate) fn beyond_4gib(&self) -> bool
        ensures { result ≡ beyond_4gib self.now }
    {
        self.segment_end > u64::from(u32::MAX)
    }

    // Where the next section begins, or none, and nothing changed, when it ends past the segment.
    #[tactic(auto, unfolding(crate::specs::Offsets::next_start, crate::specs::Offsets::next_offsets))]
    pub fn next(&mut self, section: Section) -> Option<u64>
        ensures answer { result ≡ next_start self.old section }
        ensures after { self.new ≡ next_offsets self.old section }
    {
        if !self.beyond_4gib() || !file_backed(section.flags) {
            return Some(u64::from(section.offset));
        }
        let (start, start_wrapped) = least_from(self.previous_end, section.offset);
        let (end, end_wrapped) = start.overflowing_add(section.size);
        if end > self.segment_end {
            return None;
        }
        self.previous_end = end;
        self.wrapped |= start_wrapped | end_wrapped;
        Some(start)
    }

    // Whether a true sum has reached 2^64 so far.
    pub fn wrapped(&self) -> bool
        ensures { result ≡ self.now.wrapped }
    {
        self.wrapped
    }
}
