// Goes over the sections of a segment: first to see that each ends inside the segment, then to
// list them, so that nothing is listed of a segment that is refused.
ghost use Rattle.std.specs.Prelude.{◌≡◌, ◌+◌, ◌^◌, ◌<◌};
ghost use Rattle.list.specs.Contents.{contents_of};
ghost use Rattle.sections.specs.Listings.{checked, filled, record_of, read_only_of};

use crate::kind::kind_of;
use crate::offset::SectionOffsets;
use crate::record::{SectionRecord, SectionTable};
use crate::section_iter::SectionIter;
use fields::name::Name;
use fields::section::Section;
use fields::width::Width;
use list::list::List;
use source::refusal::{Reason, Refusal};
use source::source::Source;

// The segment of what is read and run.
const TEXT: &[u8] = b"__TEXT";

impl SectionTable {
    // The offsets after the last section, or the refusal at the first section that ends past the
    // segment. Refused, too, when the sections pass the source.
    pub fn check_sections<S: Source, W: Width>(
        &self,
        s: &S,
        mut offsets: SectionOffsets,
    ) -> Result<SectionOffsets, Refusal>
        ensures { result ≡ checked W.Width.wide (S.Source.bytes s.now) self.now self.now.count self.now.place offsets }
    {
        // Stored offsets stand below 4 GiB, so that no section needs to be read.
        let bytes = u64::from(self.count) * Section::size::<W>();
        if !offsets.beyond_4gib() && s.has(self.place, bytes) {
            return Ok(offsets);
        }
        for found in SectionIter::<S, W>::new(s, *self) {
            let (place, section) = found?;
            offsets
                .next(section)
                .ok_or(Reason::SectionPastSegment.at(place))?;
        }
        Ok(offsets)
    }

    // Lists the sections, numbered onward from those that are listed already, as far as there is
    // room.
    pub fn list_sections<S: Source, W: Width>(
        &self,
        s: &S,
        mut offsets: SectionOffsets,
        sections: &mut List<SectionRecord>,
    )
        ensures contents { contents_of sections.new ≡ filled W.Width.wide (S.Source.bytes s.now) self.now self.now.count self.now.place offsets (contents_of sections.old) }
        ensures owner { sections.new.slots.ghost_name ≡ sections.old.slots.ghost_name }
    {
        for found in SectionIter::<S, W>::new(s, *self) {
            let Ok((place, section)) = found else {
                return;
            };
            // Nothing is listed past the last slot.
            if sections.free() == 0 {
                return;
            }
            let offset = offsets.next(section).unwrap_or(0);
            let number = sections.count() as u64 + 1;
            let record = self.record_of(s, place, section, number, offset);
            let _ = sections.push(record, self.command);
        }
    }

    // Whether a section of this segment name is read-only.
    fn is_read_only(&self, segname: &[u8]) -> bool
        ensures { result ≡ read_only_of self.now.read_only segname.now }
    {
        self.read_only.unwrap_or_else(|| segname == TEXT)
    }

    // The record of the section at a place.
    fn record_of<S: Source>(
        &self,
        s: &S,
        place: u64,
        section: Section,
        number: u64,
        offset: u64,
    ) -> SectionRecord
        requires { place + 16 < 2 ^ 64 }
        ensures { result ≡ record_of (S.Source.bytes s.now) self.now place section number offset }
    {
        let segname = Name::read(s, place + 16);
        let segname = segname.as_bytes();
        SectionRecord {
            number,
            kind: kind_of(segname, section.flags, self.is_read_only(segname)),
            place,
            addr: section.addr,
            size: section.size,
            offset,
        }
    }
}
