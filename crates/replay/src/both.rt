// The same run on two sources.
ghost use Rattle.std.specs.Prelude.{◌≡◌};
ghost use Rattle.list.specs.Contents.{contents_of};
ghost use Rattle.replay.specs.Law.{LawOfAllRuns};
ghost use Rattle.replay.specs.Left.{RunOf};
ghost use Rattle.replay.specs.Runs.{lists_of};
ghost use Rattle.replay.specs.Stages.{SameSlices};

use crate::calls::{Answer, Call, Stage};
use crate::driver::replay;
use fields::width::Width;
use list::list::List;
use sections::record::{SectionRecord, SegmentRecord};
use source::refusal::Refusal;
use source::source::Source;
use stabs::map::{MapEntry, MapFile};

// Opens two sources and makes the same calls on both, as `replay` does on one. The law of all runs
// holds of them: after every call the section records, the layouts and the object map are right on
// both sides; and if the two sources mean the same bytes, open and every call answer alike and leave
// the same records.
pub fn replay_both<S: Source, T: Source, W: Width + Copy + Drop>(
    first: S,
    second: T,
    width: W,
    calls: &[Call],
    left_segments: &mut List<SegmentRecord>,
    left_sections: &mut List<SectionRecord>,
    left_files: &mut List<MapFile>,
    left_entries: &mut List<MapEntry>,
    left_answers: &mut List<Answer>,
    right_segments: &mut List<SegmentRecord>,
    right_sections: &mut List<SectionRecord>,
    right_files: &mut List<MapFile>,
    right_entries: &mut List<MapEntry>,
    right_answers: &mut List<Answer>,
) -> (
    Result<Stage<S, W>, (Refusal, S)>,
    Result<Stage<T, W>, (Refusal, T)>,
)
    ensures left { RunOf W.Width.wide (S.Source.bytes first) first calls.now (lists_of left_segments.old left_sections.old left_files.old left_entries.old) (lists_of left_segments.new left_sections.new left_files.new left_entries.new) (contents_of left_answers.old) (contents_of left_answers.new) result.0 }
    ensures right { RunOf W.Width.wide (T.Source.bytes second) second calls.now (lists_of right_segments.old right_sections.old right_files.old right_entries.old) (lists_of right_segments.new right_sections.new right_files.new right_entries.new) (contents_of right_answers.old) (contents_of right_answers.new) result.1 }
    ensures left_slices { SameSlices left_segments.old left_sections.old left_files.old left_entries.old left_segments.new left_sections.new left_files.new left_entries.new }
    ensures left_told_slice { left_answers.new.slots.ghost_name ≡ left_answers.old.slots.ghost_name }
    ensures right_slices { SameSlices right_segments.old right_sections.old right_files.old right_entries.old right_segments.new right_sections.new right_files.new right_entries.new }
    ensures right_told_slice { right_answers.new.slots.ghost_name ≡ right_answers.old.slots.ghost_name }
    ensures law { LawOfAllRuns W.Width.wide (S.Source.bytes first) (T.Source.bytes second) calls.now (lists_of left_segments.old left_sections.old left_files.old left_entries.old) (lists_of right_segments.old right_sections.old right_files.old right_entries.old) }
{
    (
        replay(
            first,
            width,
            calls,
            left_segments,
            left_sections,
            left_files,
            left_entries,
            left_answers,
        ),
        replay(
            second,
            width,
            calls,
            right_segments,
            right_sections,
            right_files,
            right_entries,
            right_answers,
        ),
    )
}
