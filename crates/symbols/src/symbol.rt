// What a symbol that is no stab answers.
ghost use Rattle.std.specs.Prelude.{◌≡◌, ◌+◌, ◌-◌, ◌^◌, ◌<◌, ◌≤◌, length};
ghost use Rattle.std.specs.Str.{bytes_eq};
ghost use Rattle.source.specs.Bytes.{run};
ghost use Rattle.list.specs.Contents.{contents_of};
ghost use Rattle.symbols.specs.Symbols.{address_of, digits, is_common, is_local, is_ltmp, is_undefined, kind_by, kind_in, record_for, scope_of, section_for, stands_for_section, symbol_of};

use crate::table::SymbolTable;
use fields::symbol::Nlist;
use list::list::List;
use sections::kind::SectionKind;
use sections::record::SectionRecord;
use source::source::Source;
use source::span::Span;
use std::fmt;

pub const N_STAB: u8 = 0xe0;

pub const N_PEXT: u8 = 0x10;

pub const N_TYPE: u8 = 0x0e;

pub const N_EXT: u8 = 0x01;

pub const N_UNDF: u8 = 0x0;

pub const N_ABS: u8 = 0x2;

pub const N_INDR: u8 = 0xa;

pub const N_SECT: u8 = 0xe;

pub const N_WEAK_REF: u16 = 0x40;

pub const N_WEAK_DEF: u16 = 0x80;

// Where a symbol is defined.
#[derive(Clone, Copy, PartialEq, Eq, Debug)]
pub enum SymbolSection {
    Unknown,
    Undefined,
    Absolute,
    Common,
    Section(u8),
}

// What a symbol names.
#[derive(Clone, Copy, PartialEq, Eq, Debug)]
pub enum SymbolKind {
    Unknown,
    Text,
    Data,
    Section,
    Tls,
}

// From where a symbol can be seen.
#[derive(Clone, Copy, PartialEq, Eq, Debug)]
pub enum SymbolScope {
    Unknown,
    Compilation,
    Linkage,
    Dynamic,
}

#[derive(Clone, Copy, PartialEq, Eq, Debug)]
pub struct Symbol {
    pub address: u64,
    pub section: SymbolSection,
    pub kind: SymbolKind,
    pub scope: SymbolScope,
    pub weak: bool,
}

// With no value, a symbol of the type N_UNDF is undefined.
fn is_undefined(x: Nlist) -> bool
    ensures { result ≡ is_undefined x }
{
    x.n_type & N_TYPE == N_UNDF && x.n_value == 0
}

// With a value, which is its size, it is common.
fn is_common(x: Nlist) -> bool
    ensures { result ≡ is_common x }
{
    x.n_type & N_TYPE == N_UNDF && x.n_value != 0
}

// Where a symbol is defined.
fn section_for(x: Nlist) -> SymbolSection
    ensures { result ≡ section_for x }
{
    match x.n_type & N_TYPE {
        N_UNDF if x.n_value == 0 => SymbolSection::Undefined,
        N_UNDF => SymbolSection::Common,
        N_ABS => SymbolSection::Absolute,
        N_SECT if x.n_sect != 0 => SymbolSection::Section(x.n_sect),
        _ => SymbolSection::Unknown,
    }
}

// The address of a symbol: its value, unless that is a size or the index of a name.
fn address_of(x: Nlist) -> u64
    ensures { result ≡ address_of x }
{
    if is_common(x) || x.n_type & N_TYPE == N_INDR {
        0
    } else {
        x.n_value
    }
}

// From where a symbol can be seen.
fn scope_of(x: Nlist) -> SymbolScope
    ensures { result ≡ scope_of x }
{
    if is_undefined(x) {
        SymbolScope::Unknown
    } else if x.n_type & N_EXT == 0 {
        SymbolScope::Compilation
    } else if x.n_type & N_PEXT != 0 {
        SymbolScope::Linkage
    } else {
        SymbolScope::Dynamic
    }
}

// Whether a symbol is seen from one compilation only.
fn is_local(x: Nlist) -> bool
    ensures { result ≡ is_local x }
{
    !is_undefined(x) && x.n_type & N_EXT == 0
}

// What a symbol names in a section of a kind.
fn kind_in(kind: SectionKind) -> SymbolKind
    ensures { result ≡ kind_in kind }
{
    match kind {
        SectionKind::Text => SymbolKind::Text,
        SectionKind::Data
        | SectionKind::ReadOnlyData
        | SectionKind::ReadOnlyString
        | SectionKind::UninitializedData => SymbolKind::Data,
        SectionKind::Tls | SectionKind::UninitializedTls | SectionKind::TlsVariables => {
            SymbolKind::Tls
        }
        SectionKind::Unknown | SectionKind::Debug => SymbolKind::Unknown,
    }
}

// Whether the bytes from start to end are digits.
fn are_digits<S: Source>(s: &S, start: u64, end: u64) -> bool
    requires { end ≤ length (S.Source.bytes s.now) }
    ensures { result ≡ digits (run start (end - start) (S.Source.bytes s.now)) }
{
    (start..end).all(|p| s.byte(p).is_some_and(|b| b.is_ascii_digit()))
}

// Whether the bytes from start on are those of a word.
fn stands_at<S: Source>(s: &S, start: u64, word: &[u8]) -> bool
    requires inside { start + length word.now ≤ length (S.Source.bytes s.now) }
    requires fits { start + length word.now < 2 ^ 64 }
    ensures { result ≡ bytes_eq (run start (length word.now) (S.Source.bytes s.now)) word.now }
{
    let end = start + word.len() as u64;
    (start..end).zip(word).all(|(p, b)| s.byte(p) == Some(*b))
}

// Whether a name is `ltmp` and a digit or more.
#[tactic(auto, using(crate::proofs::Digits::ltmp_run))]
fn is_ltmp<S: Source>(s: &S, name: Span) -> bool
    requires inside { name.start + name.len ≤ length (S.Source.bytes s.now) }
    requires fits { name.start + name.len < 2 ^ 64 }
    ensures { result ≡ is_ltmp (run name.start name.len (S.Source.bytes s.now)) }
{
    name.len > 4
        && stands_at(s, name.start, b"ltmp")
        && are_digits(s, name.start + 4, name.start + name.len)
}

// The record of a symbol's section, where that is listed.
fn record_for(sections: &List<SectionRecord>, section: SymbolSection) -> Option<SectionRecord>
    ensures { result ≡ record_for (contents_of sections.now) section }
{
    match section {
        SymbolSection::Section(n) => sections.get(usize::from(n).saturating_sub(1)),
        _ => None,
    }
}

impl<'a, S: Source> SymbolTable<'a, S> {
    // Whether a symbol stands for its section: so the assembler names the start of one.
    fn stands_for_section(&self, x: Nlist, r: SectionRecord) -> bool
        ensures { result ≡ stands_for_section (S.Source.bytes self.now.source.now) self.now.symtab x r }
    {
        is_local(x)
            && address_of(x) == r.addr
            && self
                .name(x.n_strx)
                .is_some_and(|name| is_ltmp(self.source, name))
    }

    // What a symbol names, by the record of its section.
    fn kind_by(&self, x: Nlist, row: Option<SectionRecord>) -> SymbolKind
        ensures { result ≡ kind_by (S.Source.bytes self.now.source.now) self.now.symtab x row }
    {
        match row {
            Some(r) if self.stands_for_section(x, r) => SymbolKind::Section,
            Some(r) => kind_in(r.kind),
            None if is_common(x) => SymbolKind::Data,
            None => SymbolKind::Unknown,
        }
    }

    // What a symbol answers, with the sections of its library in their order; a stab, nothing.
    #[tactic(auto, unfolding(crate::specs::Symbols::symbol_of))]
    pub fn symbol(&self, sections: &List<SectionRecord>, nlist: Nlist) -> Option<Symbol>
        ensures { result ≡ symbol_of (S.Source.bytes self.now.source.now) self.now.symtab (contents_of sections.now) nlist }
    {
        if nlist.n_type & N_STAB != 0 {
            return None;
        }
        let section = section_for(nlist);
        Some(Symbol {
            address: address_of(nlist),
            section,
            kind: self.kind_by(nlist, record_for(sections, section)),
            scope: scope_of(nlist),
            weak: nlist.n_desc & (N_WEAK_REF | N_WEAK_DEF) != 0,
        })
    }
}

impl fmt::Display for SymbolSection {
    fn fmt<W: fmt::Write>(&self, f: &mut fmt::Formatter<W>) -> fmt::Result {
        match *self {
            SymbolSection::Unknown => f.pad("unknown"),
            SymbolSection::Undefined => f.pad("undefined"),
            SymbolSection::Absolute => f.pad("absolute"),
            SymbolSection::Common => f.pad("common"),
            SymbolSection::Section(n) => write!(f, "section:{n}"),
        }
    }
}

impl fmt::Display for SymbolKind {
    fn fmt<W: fmt::Write>(&self, f: &mut fmt::Formatter<W>) -> fmt::Result {
        f.pad(match self {
            SymbolKind::Unknown => "Unknown",
            SymbolKind::Text => "Text",
            SymbolKind::Data => "Data",
            SymbolKind::Section => "Section",
            SymbolKind::Tls => "Tls",
        })
    }
}

impl fmt::Display for SymbolScope {
    fn fmt<W: fmt::Write>(&self, f: &mut fmt::Formatter<W>) -> fmt::Result {
        f.pad(match self {
            SymbolScope::Unknown => "Unknown",
            SymbolScope::Compilation => "Compilation",
            SymbolScope::Linkage => "Linkage",
            SymbolScope::Dynamic => "Dynamic",
        })
    }
}
