// The slots of one list, of a step and of a step of the object map.
ghost use Rattle.std.specs.Prelude.{◌≡◌};
ghost use Rattle.list.specs.Contents.{empty, push_answer, pushed};
ghost use Rattle.reader.specs.Maps.{map_step_of};
ghost use Rattle.reader.specs.Walks.{step_of};

use fields::width::Width;
use list::list::List;
use reader::reading::Reading;
use reader::state::{MapAnswer, StepAnswer};
use reader::walk::Walk;
use sections::record::{SectionRecord, SegmentRecord};
use source::refusal::Refusal;
use source::source::Source;
use stabs::map::{MapEntry, MapFile};

// Pushes a record onto a new list over the slots.
pub fn push_into<T: Copy>(slots: &mut [T], x: T) -> Result<(), Refusal>
    ensures answer { result ≡ push_answer (empty slots.old) 0 }
    ensures slots { slots.new ≡ (pushed (empty slots.old) x).slots }
{
    let mut list = List::new(slots);
    list.push(x, 0)
}

// Makes a step with new lists over the slots.
pub fn step_into<S: Source, W: Width>(
    walk: &mut Walk<S, W>,
    segment_slots: &mut [SegmentRecord],
    section_slots: &mut [SectionRecord],
) -> Result<StepAnswer, Refusal>
    ensures segments { segment_slots.new ≡ (step_of W.Width.wide (S.Source.bytes walk.old.source) walk.old.state (empty segment_slots.old) (empty section_slots.old)).segments.slots }
    ensures sections { section_slots.new ≡ (step_of W.Width.wide (S.Source.bytes walk.old.source) walk.old.state (empty segment_slots.old) (empty section_slots.old)).sections.slots }
{
    let mut segments = List::new(segment_slots);
    let mut sections = List::new(section_slots);
    walk.step(&mut segments, &mut sections)
}

// Passes a symbol of the object map with new lists over the slots.
pub fn map_step_into<S: Source, W: Width>(
    reading: &mut Reading<S, W>,
    file_slots: &mut [MapFile],
    entry_slots: &mut [MapEntry],
) -> Result<MapAnswer, Refusal>
    ensures files { file_slots.new ≡ (map_step_of W.Width.wide (S.Source.bytes reading.old.source) reading.old.state reading.old.map (empty file_slots.old) (empty entry_slots.old)).files.slots }
    ensures entries { entry_slots.new ≡ (map_step_of W.Width.wide (S.Source.bytes reading.old.source) reading.old.state reading.old.map (empty file_slots.old) (empty entry_slots.old)).entries.slots }
{
    let mut files = List::new(file_slots);
    let mut entries = List::new(entry_slots);
    reading.map_step(&mut files, &mut entries)
}
