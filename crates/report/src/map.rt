// Lines for the files and the entries of an object map.
use crate::shown::ShownRun;
use source::source::Source;
use stabs::map::{MapEntry, MapFile};
use std::fmt;

// An object file by its number, printed as its path, and its member in parentheses.
#[derive(Clone, Copy)]
pub struct FileLine<'a, S> {
    pub source: &'a S,
    pub number: u64,
    pub file: MapFile,
}

impl<'a, S: Source> fmt::Display for FileLine<'a, S> {
    fn fmt<W: fmt::Write>(&self, f: &mut fmt::Formatter<W>) -> fmt::Result {
        let source = self.source;
        let run = self.file.path;
        write!(f, "{:>6}  {}", self.number, ShownRun { source, run })?;
        match self.file.member {
            Some(run) => write!(f, "({})", ShownRun { source, run }),
            None => Ok(()),
        }
    }
}

// A function or a static variable.
#[derive(Clone, Copy)]
pub struct EntryLine<'a, S> {
    pub source: &'a S,
    pub entry: MapEntry,
}

impl<'a, S: Source> fmt::Display for EntryLine<'a, S> {
    fn fmt<W: fmt::Write>(&self, f: &mut fmt::Formatter<W>) -> fmt::Result {
        let MapEntry {
            address,
            size,
            name,
            file,
        } = self.entry;
        let name = ShownRun {
            source: self.source,
            run: name,
        };
        write!(f, "{address:#018x}  {size:#018x}  {file:>6}  {name}")
    }
}
