// The symbol table that a walk has come upon.
ghost use Rattle.std.specs.Prelude.{◌≡◌};
ghost use Rattle.reader.specs.Tables.{symbol_at, Counted};

use crate::state::State;
use fields::load_command::SymtabCommand;
use fields::symbol::Nlist;
use fields::width::Width;
use source::source::Source;

// A symbol: the table that it is in, the place of its record, and its fields.
#[derive(Clone, Copy, PartialEq, Eq, Debug)]
pub struct TableSymbol {
    pub table: SymtabCommand,
    pub place: u64,
    pub nlist: Nlist,
}

impl State {
    // The symbol of a number, from 0.
    #[tactic(auto, unfolding(crate::specs::Tables::symbol_at))]
    pub(crate) fn symbol_at<S: Source, W: Width>(
        &self,
        source: &S,
        number: u64,
    ) -> Option<TableSymbol>
        ensures value { result ≡ symbol_at W.Width.wide (S.Source.bytes source.now) self.now number }
        ensures counted { Counted number result }
    {
        let table = self.symtab?;
        if number >= u64::from(table.nsyms) {
            return None;
        }
        let place = u64::from(table.symoff) + number * Nlist::size::<W>();
        let nlist = Nlist::read::<S, W>(self.fields(source), place)?;
        Some(TableSymbol {
            table,
            place,
            nlist,
        })
    }
}
