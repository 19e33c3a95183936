// Calls and answers, as they are printed.
use reader::state::{MapAnswer, StepAnswer};
use replay::calls::{Answer, Call};
use report::shown::{Shown, ShownRun};
use sections::record::SectionRecord;
use source::source::Source;
use source::span::Span;
use std::fmt;
use symbols::symbol::Symbol;

// A call as a script has it.
#[derive(Clone, Copy)]
pub struct CallShown<'a>(pub Call<'a>);

impl<'a> fmt::Display for CallShown<'a> {
    fn fmt<W: fmt::Write>(&self, f: &mut fmt::Formatter<W>) -> fmt::Result {
        match self.0 {
            Call::Step => f.write_str("step"),
            Call::Finish => f.write_str("finish"),
            Call::Section(n) => write!(f, "section {n}"),
            Call::Find(name) => write!(f, "find {}", Shown(name)),
            Call::Symbol(n) => write!(f, "symbol {n}"),
            Call::Name(n) => write!(f, "name {n}"),
            Call::MapStep => f.write_str("map step"),
        }
    }
}

#[derive(Clone, Copy)]
struct StepShown(StepAnswer);

impl fmt::Display for StepShown {
    fn fmt<W: fmt::Write>(&self, f: &mut fmt::Formatter<W>) -> fmt::Result {
        f.write_str(match self.0 {
            StepAnswer::Segment => "listed a segment",
            StepAnswer::Symbols => "found the symbols",
            StepAnswer::Passed => "passed a command",
            StepAnswer::End => "end",
            StepAnswer::Broken => "broken",
        })
    }
}

#[derive(Clone, Copy)]
struct MapShown(MapAnswer);

impl fmt::Display for MapShown {
    fn fmt<W: fmt::Write>(&self, f: &mut fmt::Formatter<W>) -> fmt::Result {
        f.write_str(match self.0 {
            MapAnswer::Passed => "passed a symbol",
            MapAnswer::End => "end",
        })
    }
}

#[derive(Clone, Copy)]
struct SectionShown(SectionRecord);

impl fmt::Display for SectionShown {
    fn fmt<W: fmt::Write>(&self, f: &mut fmt::Formatter<W>) -> fmt::Result {
        let r = self.0;
        write!(
            f,
            "section {}, {}, address {:#x}, size {:#x}, offset {:#x}",
            r.number, r.kind, r.addr, r.size, r.offset
        )
    }
}

#[derive(Clone, Copy)]
struct SymbolShown(Symbol);

impl fmt::Display for SymbolShown {
    fn fmt<W: fmt::Write>(&self, f: &mut fmt::Formatter<W>) -> fmt::Result {
        let x = self.0;
        let weak = if x.weak { ", weak" } else { "" };
        write!(
            f,
            "address {:#x}, {}, {}, {}{weak}",
            x.address, x.section, x.kind, x.scope
        )
    }
}

// An answer; the source is the one that was asked.
#[derive(Clone, Copy)]
pub struct AnswerShown<'a, S> {
    pub source: &'a S,
    pub answer: Answer,
}

impl<'a, S: Source> fmt::Display for AnswerShown<'a, S> {
    fn fmt<W: fmt::Write>(&self, f: &mut fmt::Formatter<W>) -> fmt::Result {
        match self.answer {
            Answer::Stepped(answer) => StepShown(answer).fmt(f),
            Answer::Finished => f.write_str("finished"),
            Answer::Listed(r) | Answer::Found(Some(r)) => SectionShown(r).fmt(f),
            Answer::Found(None) => f.write_str("none"),
            Answer::Known(Some(x)) => SymbolShown(x).fmt(f),
            Answer::Known(None) => f.write_str("a stab"),
            Answer::Named(run) => {
                let source = self.source;
                let Span { start, len } = run;
                write!(f, "{len} bytes at {start}: {}", ShownRun { source, run })
            }
            Answer::Mapped(answer) => MapShown(answer).fmt(f),
            Answer::Refused(e) => write!(f, "{e}"),
            Answer::Skipped => f.write_str("skipped"),
        }
    }
}
