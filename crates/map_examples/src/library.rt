// Libraries that are made here, at any width and byte order: a header, a symtab command, the strings
// and the symbols.
use fields::endian::Endianness;
use fields::symbol::Nlist;
use fields::width::Width;
use list::list::List;
use reader::reading::Reading;
use reader::state::StepAnswer;
use reader::walk::open;
use sections::record::{SectionRecord, SegmentRecord};
use source::plain::Plain;
use source::source::Source;
use source::span::Span;
use std::alloc::Global;
use std::process::Abort;
use std::test::Fail;

pub(crate) fn nlist(n_strx: u32, n_type: u8, n_sect: u8, n_desc: u16, n_value: u64) -> Nlist {
    Nlist {
        n_strx,
        n_type,
        n_sect,
        n_desc,
        n_value,
    }
}

// The bytes of a number, given greatest first.
fn put<const N: usize>(
    out: &mut Vec<u8>,
    mut bytes: [u8; N],
    endian: Endianness,
) -> Result<(), Fail> {
    if endian == Endianness::Little {
        bytes.reverse();
    }
    out.extend_from_slice(&bytes)?;
    Ok(())
}

fn put_all(out: &mut Vec<u8>, words: &[u32], endian: Endianness) -> Result<(), Fail> {
    for x in words {
        put(out, x.to_be_bytes(), endian)?;
    }
    Ok(())
}

fn put_symbol<W: Width>(out: &mut Vec<u8>, symbol: Nlist, endian: Endianness) -> Result<(), Fail> {
    put(out, symbol.n_strx.to_be_bytes(), endian)?;
    out.push(symbol.n_type)?;
    out.push(symbol.n_sect)?;
    put(out, symbol.n_desc.to_be_bytes(), endian)?;
    if W::either(false, true) {
        put(out, symbol.n_value.to_be_bytes(), endian)
    } else {
        put(out, u32::try_from(symbol.n_value)?.to_be_bytes(), endian)
    }
}

// The headers, of object files with one command of 24 bytes.
const NARROW: &[u32] = &[0xfeed_face, 0, 0, 1, 1, 24, 0];

const BROAD: &[u32] = &[0xfeed_facf, 0, 0, 1, 1, 24, 0, 0];

// The strings stand after the command, and the symbols after them.
fn strings_at<W: Width>() -> u32 {
    W::either(52, 56)
}

// A name at an index into the strings.
pub(crate) fn span<W: Width>(index: u64, len: u64) -> Span {
    Span {
        start: u64::from(strings_at::<W>()).saturating_add(index),
        len,
    }
}

// The place of the symbol of a number, after strings of a length.
pub(crate) fn symbol_place<W: Width>(strings: usize, number: u64) -> u64 {
    let first = u64::from(strings_at::<W>()).saturating_add(strings as u64);
    first.saturating_add(number.saturating_mul(W::either(12, 16)))
}

pub(crate) fn library<W: Width>(
    heap: Global,
    endian: Endianness,
    strings: &[u8],
    symbols: &[Nlist],
) -> Result<Vec<u8>, Fail> {
    let symoff = u32::try_from(symbol_place::<W>(strings.len(), 0))?;
    let nsyms = u32::try_from(symbols.len())?;
    let strsize = u32::try_from(strings.len())?;
    let command = [2, 24, symoff, nsyms, strings_at::<W>(), strsize];
    let mut out = Vec::new(heap);
    put_all(&mut out, W::either(NARROW, BROAD), endian)?;
    put_all(&mut out, &command, endian)?;
    out.extend_from_slice(strings)?;
    for symbol in symbols {
        put_symbol::<W>(&mut out, *symbol, endian)?;
    }
    Ok(out)
}

// The reading of such a library.
pub(crate) fn reading_of<'a, W: Width + Drop>(
    rt: &impl Abort,
    bytes: &'a [u8],
    width: W,
) -> Result<Reading<Plain<'a>, W>, Fail> {
    let mut segments = [SegmentRecord::default(); 1];
    let mut sections = [SectionRecord::default(); 1];
    let mut segments = List::new(&mut segments);
    let mut sections = List::new(&mut sections);
    let mut walk = open(Plain(bytes), width).map_err(|(e, _)| e)?;
    for expected in [StepAnswer::Symbols, StepAnswer::End] {
        assert_eq!(rt; walk.step(&mut segments, &mut sections)?, expected);
    }
    Ok(walk.finish().map_err(|(e, _)| e)?)
}
