// What symbols answer, and where their names stand.
use crate::library::{library, nlist, reading_of, span, symbol_place};
use fields::endian::Endianness;
use fields::symbol::Nlist;
use fields::width::{Bits32, Bits64, Width};
use list::list::List;
use sections::kind::SectionKind;
use sections::record::SectionRecord;
use source::refusal::{Level, Said};
use source::span::Span;
use std::alloc::Global;
use std::process::Abort;
use std::test::Fail;
use symbols::symbol::{Symbol, SymbolKind, SymbolScope, SymbolSection};

// The names `ltmp0` at 1, `ltmp` at 7 and `f` at 12.
const STRINGS: &[u8] = b"\0ltmp0\0ltmp\0f\0";

fn section(kind: SectionKind, addr: u64) -> SectionRecord {
    SectionRecord {
        number: 0,
        kind,
        place: 0,
        addr,
        size: 16,
        offset: 0,
    }
}

fn answer(
    address: u64,
    section: SymbolSection,
    kind: SymbolKind,
    scope: SymbolScope,
    weak: bool,
) -> Symbol {
    Symbol {
        address,
        section,
        kind,
        scope,
        weak,
    }
}

// The kinds and addresses of the sections.
const SECTIONS: [(SectionKind, u64); 4] = [
    (SectionKind::Text, 0x1000),
    (SectionKind::ReadOnlyString, 0x2000),
    (SectionKind::TlsVariables, 0x3000),
    (SectionKind::Debug, 0),
];

// Symbols with what they answer.
fn rows() -> [(Nlist, Symbol); 18] {
    let nowhere = SymbolSection::Unknown;
    let dynamic = SymbolScope::Dynamic;
    let local = SymbolScope::Compilation;
    let unseen = SymbolScope::Unknown;
    let text = SymbolKind::Text;
    let data = SymbolKind::Data;
    let other = SymbolKind::Unknown;
    [
        (
            nlist(12, 0x01, 0, 0x00, 0),
            answer(0, SymbolSection::Undefined, other, unseen, false),
        ),
        (
            nlist(12, 0x00, 0, 0x40, 0),
            answer(0, SymbolSection::Undefined, other, unseen, true),
        ),
        (
            nlist(12, 0x01, 0, 0x00, 8),
            answer(0, SymbolSection::Common, data, dynamic, false),
        ),
        (
            nlist(12, 0x00, 0, 0x00, 1),
            answer(0, SymbolSection::Common, data, local, false),
        ),
        (
            nlist(12, 0x03, 0, 0x00, 5),
            answer(5, SymbolSection::Absolute, other, dynamic, false),
        ),
        (
            nlist(12, 0x0f, 1, 0x80, 0x1004),
            answer(0x1004, SymbolSection::Section(1), text, dynamic, true),
        ),
        (
            nlist(12, 0x1f, 2, 0x3f, 0x2000),
            answer(
                0x2000,
                SymbolSection::Section(2),
                data,
                SymbolScope::Linkage,
                false,
            ),
        ),
        (
            nlist(12, 0x1e, 3, 0x00, 0x3000),
            answer(
                0x3000,
                SymbolSection::Section(3),
                SymbolKind::Tls,
                local,
                false,
            ),
        ),
        (
            nlist(12, 0x0e, 4, 0x00, 0),
            answer(0, SymbolSection::Section(4), other, local, false),
        ),
        (
            nlist(12, 0x0f, 5, 0x00, 7),
            answer(7, SymbolSection::Section(5), other, dynamic, false),
        ),
        (
            nlist(12, 0x0f, 0, 0x00, 7),
            answer(7, nowhere, other, dynamic, false),
        ),
        (
            nlist(12, 0x0b, 0, 0x00, 3),
            answer(0, nowhere, other, dynamic, false),
        ),
        (
            nlist(12, 0x0d, 0, 0x00, 3),
            answer(3, nowhere, other, dynamic, false),
        ),
        (
            nlist(1, 0x0e, 1, 0x00, 0x1000),
            answer(
                0x1000,
                SymbolSection::Section(1),
                SymbolKind::Section,
                local,
                false,
            ),
        ),
        (
            nlist(1, 0x0e, 1, 0x00, 0x1004),
            answer(0x1004, SymbolSection::Section(1), text, local, false),
        ),
        (
            nlist(1, 0x0f, 1, 0x00, 0x1000),
            answer(0x1000, SymbolSection::Section(1), text, dynamic, false),
        ),
        (
            nlist(7, 0x0e, 1, 0x00, 0x1000),
            answer(0x1000, SymbolSection::Section(1), text, local, false),
        ),
        (
            nlist(12, 0x0e, 1, 0x00, 0x1000),
            answer(0x1000, SymbolSection::Section(1), text, local, false),
        ),
    ]
}

// What the one symbol of a library answers; none if it is a stab.
fn answer_of<W: Width + Drop>(
    rt: &impl Abort,
    heap: Global,
    width: W,
    endian: Endianness,
    given: Nlist,
) -> Result<Option<Symbol>, Fail> {
    let mut slots = [SectionRecord::default(); 4];
    let mut sections = List::new(&mut slots);
    for (kind, addr) in SECTIONS {
        sections.push(section(kind, addr), 0)?;
    }
    let bytes = library::<W>(heap, endian, STRINGS, &[given])?;
    let reading = reading_of(rt, &bytes, width)?;
    Ok(reading.symbol(&sections, 0)?)
}

fn answers_hold<W: Width + Copy>(
    rt: &impl Abort,
    heap: Global,
    width: W,
    endian: Endianness,
) -> Result<(), Fail> {
    for (given, expected) in rows() {
        assert_eq!(rt; answer_of(rt, heap, width, endian, given)?, Some(expected));
    }
    let stab = nlist(12, 0x24, 1, 0, 0x1004);
    assert_eq!(rt; answer_of(rt, heap, width, endian, stab)?, None);
    Ok(())
}

#[test]
fn symbols_answer_by_their_fields(rt: HostRuntime) -> Result<(), Fail> {
    answers_hold(&rt, rt.alloc(), Bits32, Endianness::Little)?;
    answers_hold(&rt, rt.alloc(), Bits32, Endianness::Big)?;
    answers_hold(&rt, rt.alloc(), Bits64, Endianness::Little)?;
    answers_hold(&rt, rt.alloc(), Bits64, Endianness::Big)
}

// Where the name of a symbol stands, in a library of two symbols and six bytes of strings. The
// first symbol has the index 0.
fn name_of<W: Width + Drop>(
    rt: &impl Abort,
    heap: Global,
    width: W,
    endian: Endianness,
    n_strx: u32,
    number: u64,
) -> Result<Result<Span, Said>, Fail> {
    let symbols = [nlist(0, 0x0f, 1, 0, 0), nlist(n_strx, 0x0f, 1, 0, 0)];
    let bytes = library::<W>(heap, endian, b"\0name\0", &symbols)?;
    let reading = reading_of(rt, &bytes, width)?;
    Ok(reading.name(number).map_err(Said::from))
}

fn names_hold<W: Width + Copy>(
    rt: &impl Abort,
    heap: Global,
    width: W,
    endian: Endianness,
) -> Result<(), Fail> {
    let unread = (10, Level::Record, symbol_place::<W>(6, 1));
    let rows = [
        (0, 0, Ok(Span { start: 0, len: 0 })),
        (1, 1, Ok(span::<W>(1, 4))),
        (4, 1, Ok(span::<W>(4, 1))),
        (5, 1, Ok(span::<W>(5, 0))),
        (6, 1, Err(unread)),
        (7, 1, Err(unread)),
        (1, 2, Err((9, Level::Reading, 2))),
    ];
    for (n_strx, number, expected) in rows {
        assert_eq!(rt; name_of(rt, heap, width, endian, n_strx, number)?, expected);
    }
    Ok(())
}

#[test]
fn names_end_before_a_zero_of_their_table(rt: HostRuntime) -> Result<(), Fail> {
    names_hold(&rt, rt.alloc(), Bits32, Endianness::Little)?;
    names_hold(&rt, rt.alloc(), Bits32, Endianness::Big)?;
    names_hold(&rt, rt.alloc(), Bits64, Endianness::Little)?;
    names_hold(&rt, rt.alloc(), Bits64, Endianness::Big)
}

#[test]
fn a_number_past_the_last_symbol_is_unknown(rt: HostRuntime) -> Result<(), Fail> {
    let bytes = library::<Bits64>(
        rt.alloc(),
        Endianness::Big,
        STRINGS,
        &[nlist(12, 0, 0, 0, 0)],
    )?;
    let reading = reading_of(&rt, &bytes, Bits64)?;
    let mut slots = [SectionRecord::default(); 1];
    let sections = List::new(&mut slots);
    let answer = reading.symbol(&sections, 1).map_err(Said::from);
    assert_eq!(rt; answer, Err((9, Level::Reading, 1)));
    Ok(())
}
