// What a symbol means to the object map.
ghost use Rattle.std.specs.Prelude.{◌≡◌};
ghost use Rattle.symbols.specs.Names.{name_span};
ghost use Rattle.stabs.specs.Stabs.{function_stab, stab_of, unless_empty};

use fields::symbol::Nlist;
use source::source::Source;
use source::span::Span;
use symbols::table::SymbolTable;

pub const N_FUN: u8 = 0x24;

pub const N_STSYM: u8 = 0x26;

pub const N_SO: u8 = 0x64;

pub const N_OSO: u8 = 0x66;

// A source file; an object file, with its name if that can be read and is not empty; a function's
// opening, with its name and address, and its closing, with its size; a static variable.
#[derive(Clone, Copy, PartialEq, Eq, Debug)]
pub enum Stab {
    Source,
    Object(Option<Span>),
    Opening(Span, u64),
    Closing(u64),
    Static(Span, u64),
}

// The name of an object file opens it unless it is empty.
fn unless_empty(name: Option<Span>) -> Option<Span>
    ensures { result ≡ unless_empty name }
{
    name.filter(|name| name.len != 0)
}

// A function opens with its name and closes without one.
fn function_stab(name: Option<Span>, value: u64) -> Option<Stab>
    ensures { result ≡ function_stab name value }
{
    name.map(|name| {
        if name.len == 0 {
            Stab::Closing(value)
        } else {
            Stab::Opening(name, value)
        }
    })
}

// What a symbol means to the object map, if anything. Only the names of stabs that need one are read.
#[tactic(auto, unfolding(crate::specs::Stabs::stab_of))]
pub fn stab_of<S: Source>(table: &SymbolTable<S>, nlist: Nlist) -> Option<Stab>
    ensures { result ≡ stab_of nlist.n_type (name_span (S.Source.bytes table.now.source.now) table.now.symtab nlist.n_strx) nlist.n_value }
{
    match nlist.n_type {
        N_SO => Some(Stab::Source),
        N_OSO => Some(Stab::Object(unless_empty(table.name(nlist.n_strx)))),
        N_FUN => function_stab(table.name(nlist.n_strx), nlist.n_value),
        N_STSYM => table
            .name(nlist.n_strx)
            .map(|name| Stab::Static(name, nlist.n_value)),
        _ => None,
    }
}
