// The calls that can be made on a walk or a reading, and their answers.
use reader::reading::Reading;
use reader::state::{MapAnswer, StepAnswer};
use reader::walk::Walk;
use sections::record::SectionRecord;
use source::refusal::Refusal;
use source::span::Span;
use symbols::symbol::Symbol;

// A call with its arguments. It is a value and no closure, since the law of all runs speaks of the
// list of a run's calls.
#[derive(Clone, Copy, PartialEq, Eq, Debug)]
pub enum Call<'a> {
    Step,
    Finish,
    Section(u64),
    Find(&'a [u8]),
    Symbol(u64),
    Name(u64),
    MapStep,
}

// What a call answered. One that the build would not accept in that state is skipped. A refusal
// and what was skipped are cases among the others: as a result of an option, each other case would be
// wrapped twice, here and in every definition of the law.
#[derive(Clone, Copy, PartialEq, Eq, Debug)]
pub enum Answer {
    Stepped(StepAnswer),
    Finished,
    Listed(SectionRecord),
    Found(Option<SectionRecord>),
    Known(Option<Symbol>),
    Named(Span),
    Mapped(MapAnswer),
    Refused(Refusal),
    Skipped,
}

// A walk that goes on, or a reading.
#[derive(Drop)]
pub enum Stage<S, W> {
    Walking(Walk<S, W>),
    Done(Reading<S, W>),
}
