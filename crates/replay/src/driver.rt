// Makes the calls of a run, each on what the last left.
ghost use Rattle.std.specs.Prelude.{◌≡◌};
ghost use Rattle.list.specs.Contents.{contents_of};
ghost use Rattle.replay.specs.Law.{RunIsRight};
ghost use Rattle.replay.specs.Left.{RunOf};
ghost use Rattle.replay.specs.Runs.{answers_of, final_of, lists_of, push_all};
ghost use Rattle.replay.specs.Stages.{source_of, run_at, SameSlices};

use crate::calls::{Answer, Call, Stage};
use crate::perform::perform;
use fields::width::Width;
use list::list::List;
use reader::walk::open;
use sections::record::{SectionRecord, SegmentRecord};
use source::refusal::Refusal;
use source::source::Source;
use stabs::map::{MapEntry, MapFile};

// Makes the calls in order. The answers are kept as long as there is a slot for them.
pub fn go_on<S: Source, W: Width>(
    stage: Stage<S, W>,
    calls: &[Call],
    segments: &mut List<SegmentRecord>,
    sections: &mut List<SectionRecord>,
    files: &mut List<MapFile>,
    entries: &mut List<MapEntry>,
    answers: &mut List<Answer>,
) -> Stage<S, W>
    ensures source { source_of result ≡ source_of stage }
    ensures run { run_at result (lists_of segments.new sections.new files.new entries.new) ≡ final_of W.Width.wide (S.Source.bytes (source_of stage)) calls.now (run_at stage (lists_of segments.old sections.old files.old entries.old)) }
    ensures told { contents_of answers.new ≡ push_all (answers_of W.Width.wide (S.Source.bytes (source_of stage)) calls.now (run_at stage (lists_of segments.old sections.old files.old entries.old))) (contents_of answers.old) }
    ensures slices { SameSlices segments.old sections.old files.old entries.old segments.new sections.new files.new entries.new }
    ensures told_slice { answers.new.slots.ghost_name ≡ answers.old.slots.ghost_name }
{
    let mut at = stage;
    for call in calls {
        let (answer, next) = perform(at, *call, segments, sections, files, entries);
        at = next;
        let _ = answers.push(answer, 0);
    }
    at
}

// Opens a library and makes the calls in order, each on what the last left. Where the library does
// not open, no call is made. After every call the section records, the layout of the segment that
// the next step comes to, and the object map are right.
pub fn replay<S: Source, W: Width + Drop>(
    source: S,
    width: W,
    calls: &[Call],
    segments: &mut List<SegmentRecord>,
    sections: &mut List<SectionRecord>,
    files: &mut List<MapFile>,
    entries: &mut List<MapEntry>,
    answers: &mut List<Answer>,
) -> Result<Stage<S, W>, (Refusal, S)>
    ensures run { RunOf W.Width.wide (S.Source.bytes source) source calls.now (lists_of segments.old sections.old files.old entries.old) (lists_of segments.new sections.new files.new entries.new) (contents_of answers.old) (contents_of answers.new) result }
    ensures right { RunIsRight W.Width.wide (S.Source.bytes source) (lists_of segments.old sections.old files.old entries.old) calls.now }
    ensures slices { SameSlices segments.old sections.old files.old entries.old segments.new sections.new files.new entries.new }
    ensures told_slice { answers.new.slots.ghost_name ≡ answers.old.slots.ghost_name }
{
    let walk = open(source, width)?;
    let begun = Stage::Walking(walk);
    let ran = go_on(begun, calls, segments, sections, files, entries, answers);
    Ok(ran)
}
