// A line for each symbol.
ghost use Rattle.std.specs.Prelude.{◌≡◌};
ghost use Rattle.list.specs.Contents.{contents_of};
ghost use Rattle.reader.specs.Tables.{symbol_answer, name_answer};
ghost use Rattle.report.specs.Lines.{symbol_line};

use fields::width::Width;
use list::list::List;
use reader::reading::Reading;
use sections::record::SectionRecord;
use source::refusal::Refusal;
use source::source::Source;
use source::span::Span;
use std::fmt;
use symbols::symbol::{Symbol, SymbolSection};

// A symbol's number and what it answers, and where its name stands, or why that cannot be read. The
// name is printed apart, since it takes the source.
#[derive(Clone, Copy)]
pub struct SymbolLine {
    pub number: u64,
    pub symbol: Symbol,
    pub name: Result<Span, Refusal>,
}

impl SymbolLine {
    // The line of a symbol, by its number from 0; a stab has none. Refused as the symbol is.
    pub fn read<S: Source, W: Width>(
        reading: &Reading<S, W>,
        sections: &List<SectionRecord>,
        number: u64,
    ) -> Result<Option<SymbolLine>, Refusal>
        ensures { result ≡ symbol_line number (symbol_answer W.Width.wide (S.Source.bytes reading.now.source) reading.now.state (contents_of sections.now) number) (name_answer W.Width.wide (S.Source.bytes reading.now.source) reading.now.state number) }
    {
        let symbol = reading.symbol(sections, number)?;
        Ok(symbol.map(|symbol| SymbolLine {
            number,
            symbol,
            name: reading.name(number),
        }))
    }
}

impl fmt::Display for SymbolLine {
    fn fmt<W: fmt::Write>(&self, f: &mut fmt::Formatter<W>) -> fmt::Result {
        let symbol = self.symbol;
        write!(f, "{:>6}  {:#018x}  ", self.number, symbol.address)?;
        match symbol.section {
            SymbolSection::Section(n) => write!(f, "section:{n:<3}")?,
            section => write!(f, "{section:<11}")?,
        }
        let weak = if symbol.weak { "weak" } else { "" };
        write!(f, "  {:<7}  {:<11}  {weak:<4}", symbol.kind, symbol.scope)
    }
}
