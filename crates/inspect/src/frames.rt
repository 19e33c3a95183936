// The canonical text of many inputs, for comparison. Standard input is a row of frames, each a length
// of four bytes, least first, and so many bytes; standard output is a row of frames with the texts.
use crate::library::{ListingSlots, MapSlots, read_library, read_map};
use anyhow::Context;
use fat::{arch, count, member};
use fields::endian::Endianness;
use fields::header::endian_of;
use fields::number::Fields;
use fields::width::{Bits32, Bits64, Width};
use list::list::List;
use reader::reading::Reading;
use report::canonical::{EntryText, FileText, NameText, SectionText, SegmentText, SymbolText};
use report::room::MOST_SYMBOLS;
use sections::record::{SectionRecord, SegmentRecord};
use source::plain::Plain;
use source::refusal::Refusal;
use source::source::Source;
use stabs::map::{MapEntry, MapFile};
use std::alloc::Global;
use std::fmt::Write as TextWrite;
use std::io::{Read, Write};

// How much of a library a text holds: its segments and sections, or its symbols and object map too.
// An enum and no closure, since it is what the word of an option says.
#[derive(Clone, Copy, PartialEq, Eq)]
pub(crate) enum Extent {
    Sections,
    Whole,
}

// The names that every text asks for.
const QUERIES: [&[u8]; 9] = [
    b"__text",
    b".text",
    b"__debug_info",
    b".debug_info",
    b".debug_str_offsets",
    b".debug_",
    b".",
    b"",
    b"__bss",
];

// The text of one input, as far as it is written.
#[derive(Drop)]
struct Page {
    heap: Global,
    extent: Extent,
    text: String,
}

impl Page {
    fn new(heap: Global, extent: Extent) -> Page {
        Page {
            heap,
            extent,
            text: String::new(heap),
        }
    }

    fn put_refusal(&mut self, e: Refusal) -> anyhow::Result<()> {
        writeln!(self.text, "refused {}", e.number())?;
        Ok(())
    }

    fn put_endian<S: Source, W: Width>(&mut self, s: &S) -> anyhow::Result<()> {
        let magic = Fields::big_endian(s).u32_at(0).unwrap_or(0);
        self.text.push_str(match endian_of::<W>(magic) {
            Some(Endianness::Big) => "endian big\n",
            _ => "endian little\n",
        })?;
        Ok(())
    }

    fn put_listing(
        &mut self,
        segments: &List<SegmentRecord>,
        sections: &List<SectionRecord>,
    ) -> anyhow::Result<()> {
        for record in segments.records() {
            writeln!(self.text, "{}", SegmentText(*record))?;
        }
        for record in sections.records() {
            writeln!(self.text, "{}", SectionText(*record))?;
        }
        Ok(())
    }

    fn put_finds<S: Source, W: Width>(
        &mut self,
        reading: &Reading<S, W>,
        sections: &List<SectionRecord>,
    ) -> anyhow::Result<()> {
        for query in QUERIES {
            self.text.push_str("find ")?;
            for b in query {
                write!(self.text, "{:02x}", *b)?;
            }
            match reading.find(sections, query) {
                Some(record) => writeln!(self.text, " {}", record.number)?,
                None => self.text.push_str(" none\n")?,
            }
        }
        Ok(())
    }

    // Two lines for each symbol.
    fn put_symbols<S: Source, W: Width>(
        &mut self,
        reading: &Reading<S, W>,
        sections: &List<SectionRecord>,
    ) -> anyhow::Result<()> {
        for number in 0..MOST_SYMBOLS {
            let Ok(symbol) = reading.symbol(sections, number) else {
                break;
            };
            let name = reading.name(number);
            writeln!(self.text, "{}", SymbolText { number, symbol })?;
            writeln!(self.text, "{}", NameText { number, name })?;
        }
        Ok(())
    }

    fn put_files(&mut self, files: &List<MapFile>) -> anyhow::Result<()> {
        for (number, file) in (0u64..).zip(files.records()) {
            let file = *file;
            writeln!(self.text, "{}", FileText { number, file })?;
        }
        Ok(())
    }

    // The entries, in the order of their lines as text.
    fn put_entries(&mut self, entries: &List<MapEntry>) -> anyhow::Result<()> {
        let mut lines = Vec::new(self.heap);
        for entry in entries.records() {
            lines.push(format!(in self.heap; "{}\n", EntryText(*entry))?)?;
        }
        lines.sort()?;
        for line in &lines {
            self.text.push_str(line.as_str())?;
        }
        Ok(())
    }

    fn put_map<S: Source, W: Width>(
        &mut self,
        reading: &mut Reading<S, W>,
        sections: &List<SectionRecord>,
    ) -> anyhow::Result<()> {
        let mut slots = MapSlots::new(self.heap, reading, sections)?;
        let mut files = List::new(slots.files.as_mut_slice());
        let mut entries = List::new(slots.entries.as_mut_slice());
        match read_map(reading, &mut files, &mut entries) {
            Ok(()) => {
                self.put_files(&files)?;
                self.put_entries(&entries)
            }
            Err(e) => self.put_refusal(e),
        }
    }

    // The block of a thin file at one width.
    fn put_thin<S: Source, W: Width + Drop>(&mut self, s: &S, width: W) -> anyhow::Result<()> {
        let mut slots = ListingSlots::new::<S, W>(self.heap, s)?;
        let mut segments = List::new(slots.segments.as_mut_slice());
        let mut sections = List::new(slots.sections.as_mut_slice());
        let mut reading = match read_library(s, width, &mut segments, &mut sections) {
            Ok(reading) => reading,
            Err(e) => return self.put_refusal(e),
        };
        self.put_endian::<S, W>(s)?;
        self.put_listing(&segments, &sections)?;
        self.put_finds(&reading, &sections)?;
        if self.extent == Extent::Whole {
            self.put_symbols(&reading, &sections)?;
            self.put_map(&mut reading, &sections)?;
        }
        Ok(())
    }

    // The block of a universal file at one width.
    fn put_fat<S: Source, W: Width>(&mut self, s: &S) -> anyhow::Result<()> {
        let members = match count::<S, W>(s) {
            Ok(n) => u64::from(n),
            Err(e) => return self.put_refusal(e),
        };
        for k in 0..members {
            match member::<&S, W>(s, k).and_then(|_| arch::<S, W>(s, k)) {
                Ok(arch) => writeln!(self.text, "member {k} {} {}", arch.offset, arch.size)?,
                Err(e) => writeln!(self.text, "member {k} refused {}", e.number())?,
            }
        }
        Ok(())
    }

    fn put_all<S: Source>(&mut self, s: &S) -> anyhow::Result<()> {
        self.text.push_str("== 32\n")?;
        self.put_thin(s, Bits32)?;
        self.text.push_str("== 64\n")?;
        self.put_thin(s, Bits64)?;
        self.text.push_str("== fat32\n")?;
        self.put_fat::<S, Bits32>(s)?;
        self.text.push_str("== fat64\n")?;
        self.put_fat::<S, Bits64>(s)
    }
}

fn answer(rt: &HostRuntime, frame: &[u8], extent: Extent) -> anyhow::Result<()> {
    let mut page = Page::new(rt.alloc(), extent);
    page.put_all(&Plain(frame))?;
    let size = u32::try_from(page.text.len())?;
    let mut out = rt.stdout();
    out.write_all(&size.to_le_bytes())?;
    out.write_all(page.text.as_bytes())?;
    Ok(())
}

pub(crate) fn answer_frames(rt: &HostRuntime, extent: Extent) -> anyhow::Result<()> {
    let mut input = Vec::new(rt.alloc());
    rt.stdin().read_to_end(&mut input)?;
    let mut rest = input.as_slice();
    while let Some((len, after)) = rest.split_first_chunk::<4>() {
        let len = u32::from_le_bytes(*len) as usize;
        let (frame, next) = after.split_at_checked(len).context("a frame is cut short")?;
        answer(rt, frame, extent)?;
        rest = next;
    }
    Ok(())
}
