// The slots of one run's lists, and how many a library wants.
use fields::width::Width;
use list::list::List;
use reader::reading::Reading;
use replay::calls::{Answer, Call, Stage};
use replay::driver::replay;
use report::room::{MOST_SYMBOLS, record_slots, steps};
use sections::record::{SectionRecord, SegmentRecord};
use source::source::Source;
use stabs::map::{MapEntry, MapFile};
use std::alloc::{AllocError, Global};

// How many slots each list gets: that of the segments and that of the sections, that of the files
// and that of the entries, and that of the answers.
#[derive(Clone, Copy)]
pub(crate) struct Room {
    pub(crate) records: usize,
    pub(crate) symbols: usize,
    pub(crate) answers: usize,
}

#[derive(Drop)]
pub(crate) struct Slots {
    pub(crate) segments: Vec<SegmentRecord>,
    pub(crate) sections: Vec<SectionRecord>,
    pub(crate) files: Vec<MapFile>,
    pub(crate) entries: Vec<MapEntry>,
    pub(crate) answers: Vec<Answer>,
}

impl Slots {
    pub(crate) fn new(heap: Global, room: Room) -> Result<Slots, AllocError> {
        Ok(Slots {
            segments: vec![in heap; SegmentRecord::default(); room.records]?,
            sections: vec![in heap; SectionRecord::default(); room.records]?,
            files: vec![in heap; MapFile::default(); room.symbols]?,
            entries: vec![in heap; MapEntry::default(); room.symbols]?,
            answers: vec![in heap; Answer::Skipped; room.answers]?,
        })
    }
}

fn count_symbols<S: Source, W: Width>(
    reading: &Reading<S, W>,
    sections: &List<SectionRecord>,
) -> usize {
    (0..MOST_SYMBOLS)
        .take_while(|number| reading.symbol(sections, *number).is_ok())
        .count()
}

// The calls that read a library's commands.
pub(crate) fn commands<S: Source, W: Width>(
    heap: Global,
    s: &S,
) -> Result<Vec<Call<'static>>, AllocError> {
    let mut calls = Vec::new(heap);
    for _ in 0..steps::<S, W>(s) {
        calls.push(Call::Step)?;
    }
    calls.push(Call::Finish)?;
    Ok(calls)
}

// How many symbols a library has; none where its commands cannot be read.
pub(crate) fn symbols<S: Source, W: Width + Drop>(
    heap: Global,
    s: &S,
    width: W,
) -> Result<usize, AllocError> {
    let calls = commands::<S, W>(heap, s)?;
    let room = Room {
        records: record_slots::<S, W>(s),
        symbols: 0,
        answers: 0,
    };
    let mut slots = Slots::new(heap, room)?;
    let mut segments = List::new(slots.segments.as_mut_slice());
    let mut sections = List::new(slots.sections.as_mut_slice());
    let mut files = List::new(slots.files.as_mut_slice());
    let mut entries = List::new(slots.entries.as_mut_slice());
    let mut answers = List::new(slots.answers.as_mut_slice());
    let ran = replay(
        s,
        width,
        &calls,
        &mut segments,
        &mut sections,
        &mut files,
        &mut entries,
        &mut answers,
    );
    match ran {
        Ok(Stage::Done(reading)) => Ok(count_symbols(&reading, &sections)),
        _ => Ok(0),
    }
}
