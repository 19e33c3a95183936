// The records that a reading keeps of segments and sections.
use crate::kind::SectionKind;
use fields::endian::Endianness;

// A segment: the place of its command, the number of its first section, how many sections it has,
// and whether a true sum of its offsets reached 2^64.
#[derive(Clone, Copy, PartialEq, Eq, Debug, Default)]
pub struct SegmentRecord {
    pub place: u64,
    pub first: u64,
    pub count: u32,
    pub wrapped: bool,
}

// A section: its number, from 1 and onward across segments, its kind, the place of its record, and
// its address, size and 64-bit offset.
#[derive(Clone, Copy, PartialEq, Eq, Debug, Default)]
pub struct SectionRecord {
    pub number: u64,
    pub kind: SectionKind,
    pub place: u64,
    pub addr: u64,
    pub size: u64,
    pub offset: u64,
}

// The sections that follow a segment command: its place, that of the first section's record, and
// how many there are. `read_only` is what the segment says of writing; in an object file, which has
// only one segment, it says nothing, and a section's own segment name decides.
#[derive(Clone, Copy, PartialEq, Eq, Debug)]
pub struct SectionTable {
    pub command: u64,
    pub place: u64,
    pub count: u32,
    pub endian: Endianness,
    pub read_only: Option<bool>,
}
