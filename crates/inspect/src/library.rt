// One library, read whole.
use fields::width::Width;
use list::list::List;
use reader::reading::Reading;
use reader::state::{MapAnswer, StepAnswer};
use reader::walk::{Walk, open};
use report::room::{MOST_SYMBOLS, record_slots};
use sections::record::{SectionRecord, SegmentRecord};
use source::refusal::Refusal;
use source::source::Source;
use stabs::map::{MapEntry, MapFile};
use std::alloc::{AllocError, Global};

// Slots for the segments and sections of a library.
#[derive(Drop)]
pub(crate) struct ListingSlots {
    pub(crate) segments: Vec<SegmentRecord>,
    pub(crate) sections: Vec<SectionRecord>,
}

impl ListingSlots {
    // As many as a library at a width can want.
    pub(crate) fn new<S: Source, W: Width>(
        heap: Global,
        s: &S,
    ) -> Result<ListingSlots, AllocError> {
        let room = record_slots::<S, W>(s);
        Ok(ListingSlots {
            segments: vec![in heap; SegmentRecord::default(); room]?,
            sections: vec![in heap; SectionRecord::default(); room]?,
        })
    }
}

// Slots for the files and entries of an object map.
#[derive(Drop)]
pub(crate) struct MapSlots {
    pub(crate) files: Vec<MapFile>,
    pub(crate) entries: Vec<MapEntry>,
}

impl MapSlots {
    // As many as a reading has stabs: each file and each entry comes from one.
    pub(crate) fn new<S: Source, W: Width>(
        heap: Global,
        reading: &Reading<S, W>,
        sections: &List<SectionRecord>,
    ) -> Result<MapSlots, AllocError> {
        let room = count_stabs(reading, sections);
        Ok(MapSlots {
            files: vec![in heap; MapFile::default(); room]?,
            entries: vec![in heap; MapEntry::default(); room]?,
        })
    }
}

fn count_stabs<S: Source, W: Width>(
    reading: &Reading<S, W>,
    sections: &List<SectionRecord>,
) -> usize {
    (0..MOST_SYMBOLS)
        .map_while(|number| reading.symbol(sections, number).ok())
        .filter(|symbol| symbol.is_none())
        .count()
}

// Steps to the end of the commands. Each step but the last treats one, of which there are fewer
// than 2^32.
fn step_to_end<S: Source, W: Width>(
    walk: &mut Walk<&S, W>,
    segments: &mut List<SegmentRecord>,
    sections: &mut List<SectionRecord>,
) -> Result<(), Refusal> {
    for _ in 0..0x1_0000_0000u64 {
        match walk.step(segments, sections)? {
            StepAnswer::End | StepAnswer::Broken => break,
            StepAnswer::Segment | StepAnswer::Symbols | StepAnswer::Passed => {}
        }
    }
    Ok(())
}

// The reading of a library, with its segments and sections listed, or the first refusal.
pub(crate) fn read_library<'a, S: Source, W: Width + Drop>(
    s: &'a S,
    width: W,
    segments: &mut List<SegmentRecord>,
    sections: &mut List<SectionRecord>,
) -> Result<Reading<&'a S, W>, Refusal> {
    let mut walk = open(s, width).map_err(|(e, _)| e)?;
    step_to_end(&mut walk, segments, sections)?;
    walk.finish().map_err(|(e, _)| e)
}

// Passes all symbols of the object map that are left.
pub(crate) fn read_map<S: Source, W: Width>(
    reading: &mut Reading<S, W>,
    files: &mut List<MapFile>,
    entries: &mut List<MapEntry>,
) -> Result<(), Refusal> {
    for _ in 0..MOST_SYMBOLS {
        if reading.map_step(files, entries)? == MapAnswer::End {
            break;
        }
    }
    Ok(())
}
