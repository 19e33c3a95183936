// Where the names of symbols stand.
ghost use Rattle.std.specs.Prelude.{◌≡◌};
ghost use Rattle.symbols.specs.Names.{EndFits, InSource, name_span};

use crate::table::SymbolTable;
use source::source::Source;
use source::span::Span;

impl<'a, S: Source> SymbolTable<'a, S> {
    // Where the name of an index stands: the bytes before the first zero, if the string table lies
    // in the source and has a zero from there on. Index 0 is the empty name.
    #[tactic(auto, using(crate::proofs::Zeros::name_is), unfolding(crate::specs::Names::name_span))]
    pub fn name(&self, n_strx: u32) -> Option<Span>
        ensures value { result ≡ name_span (S.Source.bytes self.now.source.now) self.now.symtab n_strx }
        ensures inside { InSource (S.Source.bytes self.now.source.now) result }
        ensures fits { EndFits result }
    {
        if n_strx == 0 {
            return Some(Span::default());
        }
        let start = u64::from(self.symtab.stroff) + u64::from(n_strx);
        let end = u64::from(self.symtab.stroff) + u64::from(self.symtab.strsize);
        if end > self.source.len() {
            return None;
        }
        self.source
            .find(start, end, 0)
            .map(|len| Span { start, len })
    }
}
