// The questions that a finished reading answers.
ghost use Rattle.std.specs.Prelude.{◌≡◌};
ghost use Rattle.std.specs.Option.{ok_or};
ghost use Rattle.source.specs.declared.refusal.Reason.TheVariants.{UnknownNumber};
ghost use Rattle.source.specs.Refusals.{refusal};
ghost use Rattle.list.specs.Contents.{contents_of, records};
ghost use Rattle.fields.specs.Names.{name_at};
ghost use Rattle.sections.specs.Queries.{matching};
ghost use Rattle.reader.specs.Maps.{map_left, map_step_of};
ghost use Rattle.reader.specs.Readings.{section_of, find_in};
ghost use Rattle.reader.specs.Tables.{symbol_at, symbol_answer, name_answer};

use crate::lists::add;
use crate::state::{MapAnswer, MapState, State};
use crate::table::TableSymbol;
use fields::name::Name;
use fields::width::Width;
use list::list::List;
use sections::query::name_matches;
use sections::record::SectionRecord;
use source::refusal::{Reason, Refusal};
use source::source::Source;
use source::span::Span;
use stabs::map::{MapEntry, MapFile};
use stabs::stab::stab_of;
use symbols::symbol::Symbol;
use symbols::table::SymbolTable;

// A walk that was finished. Only `finish` makes one, and it is not copied.
#[derive(Drop)]
pub struct Reading<S, W> {
    pub(crate) source: S,
    pub(crate) width: W,
    pub(crate) state: State,
    pub(crate) map: MapState,
}

impl<S: Source, W: Width> Reading<S, W> {
    // The record of a section, by its number from 1.
    pub fn section(
        &self,
        sections: &List<SectionRecord>,
        number: u64,
    ) -> Result<SectionRecord, Refusal>
        ensures { result ≡ section_of (contents_of sections.now) number }
    {
        let unknown = Reason::UnknownNumber.at(number);
        let position = number.checked_sub(1).ok_or(unknown)?;
        let position = usize::try_from(position).map_err(|_| unknown)?;
        sections.get(position).ok_or(unknown)
    }

    // Whether a query means the name of a section.
    fn is_meant(&self, query: &[u8], section: SectionRecord) -> bool
        ensures { result ≡ matching query.now (name_at (S.Source.bytes self.now.source) section.place) }
    {
        name_matches(query, Name::read(&self.source, section.place).as_bytes())
    }

    // The record of the first section whose name the query means.
    pub fn find(&self, sections: &List<SectionRecord>, query: &[u8]) -> Option<SectionRecord>
        ensures { result ≡ find_in (S.Source.bytes self.now.source) query.now (records (contents_of sections.now)) }
    {
        sections
            .records()
            .iter()
            .copied()
            .find(|section| self.is_meant(query, *section))
    }

    // The symbol of a number, from 0; refused when there is none.
    fn known_symbol(&self, number: u64) -> Result<TableSymbol, Refusal>
        ensures { result ≡ ok_or (symbol_at W.Width.wide (S.Source.bytes self.now.source) self.now.state number) (refusal UnknownNumber number) }
    {
        self.state
            .symbol_at::<S, W>(&self.source, number)
            .ok_or(Reason::UnknownNumber.at(number))
    }

    // The table that a symbol is in.
    fn table_of(&self, symbol: TableSymbol) -> SymbolTable<S>
        ensures source { result.source.now ≡ self.now.source }
        ensures symtab { result.symtab ≡ symbol.table }
    {
        SymbolTable {
            source: &self.source,
            symtab: symbol.table,
        }
    }

    // What a symbol answers, by its number from 0; a stab, nothing.
    pub fn symbol(
        &self,
        sections: &List<SectionRecord>,
        number: u64,
    ) -> Result<Option<Symbol>, Refusal>
        ensures { result ≡ symbol_answer W.Width.wide (S.Source.bytes self.now.source) self.now.state (contents_of sections.now) number }
    {
        let found = self.known_symbol(number)?;
        Ok(self.table_of(found).symbol(sections, found.nlist))
    }

    // Where the name of a symbol stands, by the symbol's number from 0.
    pub fn name(&self, number: u64) -> Result<Span, Refusal>
        ensures { result ≡ name_answer W.Width.wide (S.Source.bytes self.now.source) self.now.state number }
    {
        let named = self.known_symbol(number)?;
        let unreadable = Reason::UnreadableName.at(named.place);
        self.table_of(named)
            .name(named.nlist.n_strx)
            .ok_or(unreadable)
    }

    // Passes one symbol of the object map. Refused, nothing changes.
    pub fn map_step(
        &mut self,
        files: &mut List<MapFile>,
        entries: &mut List<MapEntry>,
    ) -> Result<MapAnswer, Refusal>
        ensures step { map_left result self.new.map files.new entries.new ≡ map_step_of W.Width.wide (S.Source.bytes self.old.source) self.old.state self.old.map (contents_of files.old) (contents_of entries.old) }
        ensures source { self.new.source ≡ self.old.source }
        ensures state { self.new.state ≡ self.old.state }
        ensures files_owner { files.new.slots.ghost_name ≡ files.old.slots.ghost_name }
        ensures entries_owner { entries.new.slots.ghost_name ≡ entries.old.slots.ghost_name }
    {
        let number = u64::from(self.map.passed);
        let Some(symbol) = self.state.symbol_at::<S, W>(&self.source, number) else {
            return Ok(MapAnswer::End);
        };
        let stab = stab_of(&self.table_of(symbol), symbol.nlist);
        let mut cursor = self.map.cursor;
        // No From leads from usize to u64; the cast is proved to lose nothing.
        let addition = cursor.advance(stab, files.count() as u64);
        let answer = add(&self.source, addition, symbol.place, files, entries)?;
        self.map = MapState {
            passed: self.map.passed + 1,
            cursor,
        };
        Ok(answer)
    }
}
