// Lines of the canonical text, in which readers are compared. Numbers are decimal, and a name is the
// place where it stands and its length.
use sections::record::{SectionRecord, SegmentRecord};
use source::refusal::Refusal;
use source::span::Span;
use stabs::map::{MapEntry, MapFile};
use std::fmt;
use symbols::symbol::Symbol;

// A name: where it starts, and how many bytes it has.
#[derive(Clone, Copy)]
struct SpanText(Span);

impl fmt::Display for SpanText {
    fn fmt<W: fmt::Write>(&self, f: &mut fmt::Formatter<W>) -> fmt::Result {
        write!(f, "{} {}", self.0.start, self.0.len)
    }
}

// A segment.
#[derive(Clone, Copy)]
pub struct SegmentText(pub SegmentRecord);

impl fmt::Display for SegmentText {
    fn fmt<W: fmt::Write>(&self, f: &mut fmt::Formatter<W>) -> fmt::Result {
        write!(f, "segment {} {}", self.0.place, self.0.count)
    }
}

// A section.
#[derive(Clone, Copy)]
pub struct SectionText(pub SectionRecord);

impl fmt::Display for SectionText {
    fn fmt<W: fmt::Write>(&self, f: &mut fmt::Formatter<W>) -> fmt::Result {
        let r = self.0;
        write!(
            f,
            "section {} {} {} {} {} {}",
            r.number, r.kind, r.place, r.addr, r.size, r.offset
        )
    }
}

// A symbol by its number; a stab answers nothing.
#[derive(Clone, Copy)]
pub struct SymbolText {
    pub number: u64,
    pub symbol: Option<Symbol>,
}

impl fmt::Display for SymbolText {
    fn fmt<W: fmt::Write>(&self, f: &mut fmt::Formatter<W>) -> fmt::Result {
        let number = self.number;
        match self.symbol {
            Some(x) => write!(
                f,
                "symbol {number} {} {} {} {} {}",
                x.address,
                x.section,
                x.kind,
                x.scope,
                u8::from(x.weak)
            ),
            None => write!(f, "symbol {number} none"),
        }
    }
}

// The name of a symbol, by the symbol's number.
#[derive(Clone, Copy)]
pub struct NameText {
    pub number: u64,
    pub name: Result<Span, Refusal>,
}

impl fmt::Display for NameText {
    fn fmt<W: fmt::Write>(&self, f: &mut fmt::Formatter<W>) -> fmt::Result {
        let number = self.number;
        match self.name {
            Ok(run) => write!(f, "name {number} {}", SpanText(run)),
            Err(_) => write!(f, "name {number} unreadable"),
        }
    }
}

// An object file by its number.
#[derive(Clone, Copy)]
pub struct FileText {
    pub number: u64,
    pub file: MapFile,
}

impl fmt::Display for FileText {
    fn fmt<W: fmt::Write>(&self, f: &mut fmt::Formatter<W>) -> fmt::Result {
        write!(f, "file {} {} ", self.number, SpanText(self.file.path))?;
        match self.file.member {
            Some(run) => SpanText(run).fmt(f),
            None => f.write_str("none"),
        }
    }
}

// A function or a static variable.
#[derive(Clone, Copy)]
pub struct EntryText(pub MapEntry);

impl fmt::Display for EntryText {
    fn fmt<W: fmt::Write>(&self, f: &mut fmt::Formatter<W>) -> fmt::Result {
        let MapEntry {
            address,
            size,
            name,
            file,
        } = self.0;
        write!(f, "entry {address} {size} {} {file}", SpanText(name))
    }
}
