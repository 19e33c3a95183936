// Makes one call.
ghost use Rattle.std.specs.Prelude.{◌≡◌};
ghost use Rattle.replay.specs.Runs.{answer_of, next_of, lists_of};
ghost use Rattle.replay.specs.Stages.{source_of, run_at, SameSlices};

use crate::calls::{Answer, Call, Stage};
use fields::width::Width;
use list::list::List;
use sections::record::{SectionRecord, SegmentRecord};
use source::source::Source;
use stabs::map::{MapEntry, MapFile};

// Makes one call; one that does not fit the stage is skipped.
pub fn perform<S: Source, W: Width>(
    stage: Stage<S, W>,
    call: Call,
    segments: &mut List<SegmentRecord>,
    sections: &mut List<SectionRecord>,
    files: &mut List<MapFile>,
    entries: &mut List<MapEntry>,
) -> (Answer, Stage<S, W>)
    ensures answer { result.0 ≡ answer_of W.Width.wide (S.Source.bytes (source_of stage)) call.entry (run_at stage (lists_of segments.old sections.old files.old entries.old)) }
    ensures source { source_of result.1 ≡ source_of stage }
    ensures run { run_at result.1 (lists_of segments.new sections.new files.new entries.new) ≡ next_of W.Width.wide (S.Source.bytes (source_of stage)) call.entry (run_at stage (lists_of segments.old sections.old files.old entries.old)) }
    ensures slices { SameSlices segments.old sections.old files.old entries.old segments.new sections.new files.new entries.new }
{
    match (stage, call) {
        (Stage::Walking(mut walk), Call::Step) => {
            let told = walk
                .step(segments, sections)
                .map_or_else(Answer::Refused, Answer::Stepped);
            (told, Stage::Walking(walk))
        }
        (Stage::Walking(walk), Call::Finish) => match walk.finish() {
            Ok(reading) => (Answer::Finished, Stage::Done(reading)),
            Err((e, back)) => (Answer::Refused(e), Stage::Walking(back)),
        },
        (Stage::Done(reading), Call::Section(number)) => {
            let told = reading
                .section(sections, number)
                .map_or_else(Answer::Refused, Answer::Listed);
            (told, Stage::Done(reading))
        }
        (Stage::Done(reading), Call::Find(query)) => {
            let found = reading.find(sections, query);
            (Answer::Found(found), Stage::Done(reading))
        }
        (Stage::Done(reading), Call::Symbol(number)) => {
            let told = reading
                .symbol(sections, number)
                .map_or_else(Answer::Refused, Answer::Known);
            (told, Stage::Done(reading))
        }
        (Stage::Done(reading), Call::Name(number)) => {
            let told = reading
                .name(number)
                .map_or_else(Answer::Refused, Answer::Named);
            (told, Stage::Done(reading))
        }
        (Stage::Done(mut reading), Call::MapStep) => {
            let told = reading
                .map_step(files, entries)
                .map_or_else(Answer::Refused, Answer::Mapped);
            (told, Stage::Done(reading))
        }
        (stage, _) => (Answer::Skipped, stage),
    }
}
