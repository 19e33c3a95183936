// The slots of a run.
ghost use Rattle.std.specs.Prelude.{◌≡◌};
ghost use Rattle.list.specs.Contents.{empty};
ghost use Rattle.owners.specs.Lent.{lists_over};
ghost use Rattle.replay.specs.Law.{answers_after, lists_after};
ghost use Rattle.replay.specs.Runs.{push_all};

use fields::width::Width;
use list::list::List;
use replay::calls::{Answer, Call, Stage};
use replay::driver::replay;
use sections::record::{SectionRecord, SegmentRecord};
use source::refusal::Refusal;
use source::source::Source;
use stabs::map::{MapEntry, MapFile};

// Opens a library and makes the calls, with new lists over the slots.
pub fn replay_into<S: Source, W: Width + Drop>(
    source: S,
    width: W,
    calls: &[Call],
    segment_slots: &mut [SegmentRecord],
    section_slots: &mut [SectionRecord],
    file_slots: &mut [MapFile],
    entry_slots: &mut [MapEntry],
    answer_slots: &mut [Answer],
) -> Result<Stage<S, W>, (Refusal, S)>
    ensures segments { segment_slots.new ≡ (lists_after W.Width.wide (S.Source.bytes source) calls.now (lists_over segment_slots.old section_slots.old file_slots.old entry_slots.old)).segments.slots }
    ensures sections { section_slots.new ≡ (lists_after W.Width.wide (S.Source.bytes source) calls.now (lists_over segment_slots.old section_slots.old file_slots.old entry_slots.old)).sections.slots }
    ensures files { file_slots.new ≡ (lists_after W.Width.wide (S.Source.bytes source) calls.now (lists_over segment_slots.old section_slots.old file_slots.old entry_slots.old)).files.slots }
    ensures entries { entry_slots.new ≡ (lists_after W.Width.wide (S.Source.bytes source) calls.now (lists_over segment_slots.old section_slots.old file_slots.old entry_slots.old)).entries.slots }
    ensures answers { answer_slots.new ≡ (push_all (answers_after W.Width.wide (S.Source.bytes source) calls.now (lists_over segment_slots.old section_slots.old file_slots.old entry_slots.old)) (empty answer_slots.old)).slots }
{
    let mut segments = List::new(segment_slots);
    let mut sections = List::new(section_slots);
    let mut files = List::new(file_slots);
    let mut entries = List::new(entry_slots);
    let mut answers = List::new(answer_slots);
    replay(
        source,
        width,
        calls,
        &mut segments,
        &mut sections,
        &mut files,
        &mut entries,
        &mut answers,
    )
}
