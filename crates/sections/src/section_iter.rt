// The sections of a table, one after the other.
ghost use Rattle.std.specs.Prelude.{◌≡◌};
ghost use Rattle.std.specs.Iterator.{at_most};
ghost use Rattle.sections.specs.Listings.{GivesSection};

use crate::record::SectionTable;
use fields::number::Fields;
use fields::section::Section;
use fields::width::Width;
use source::refusal::{Reason, Refusal};
use source::source::Source;
use std::marker::PhantomData;

// What is left of a table. Each item is a section with its place, or the refusal where the source ends
// before one.
#[derive(Drop)]
pub(crate) struct SectionIter<'a, S, W> {
    source: &'a S,
    table: SectionTable,
    place: u64,
    left: u32,
    width: PhantomData<W>,
}

impl<'a, S: Source, W: Width> SectionIter<'a, S, W> {
    pub(crate) fn new(source: &'a S, table: SectionTable) -> SectionIter<'a, S, W>
        ensures source { result.source.now ≡ source.now }
        ensures table { result.table ≡ table }
        ensures place { result.place ≡ table.place }
        ensures left { result.left ≡ table.count }
    {
        SectionIter {
            source,
            table,
            place: table.place,
            left: table.count,
            width: PhantomData,
        }
    }
}

impl<'a, S: Source, W: Width> Iterator for SectionIter<'a, S, W> {
    type Item = Result<(u64, Section), Refusal>;

    ghost next_gives = { GivesSection W.Width.wide S.Source.bytes };

    ghost remaining = { λ s. at_most s.left };

    fn next(&mut self) -> Option<Result<(u64, Section), Refusal>> {
        self.left = self.left.checked_sub(1)?;
        let place = self.place;
        let fields = Fields {
            source: self.source,
            endian: self.table.endian,
        };
        let Some(section) = Section::read::<S, W>(fields, place) else {
            self.left = 0;
            return Some(Err(Reason::SectionsPastCommand.at(self.table.command)));
        };
        self.place += Section::size::<W>();
        Some(Ok((place, section)))
    }
}
