// The tables that are printed of one library.
use crate::library::{MapSlots, read_map};
use crate::listing::Printer;
use fields::width::Width;
use list::list::List;
use reader::reading::Reading;
use report::map::{EntryLine, FileLine};
use report::room::MOST_SYMBOLS;
use report::section::SectionLine;
use report::segment::SegmentLine;
use report::shown::ShownName;
use report::symbol::SymbolLine;
use sections::record::{SectionRecord, SegmentRecord};
use source::source::Source;
use stabs::map::{MapEntry, MapFile};
use std::io;

impl<'a, S: Source> Printer<'a, S> {
    pub(crate) fn print_segments(&self, segments: &List<SegmentRecord>) -> io::Result<()> {
        println!(self.rt; "  place    first  sections  wrapped")?;
        for record in segments.records() {
            println!(self.rt; "{}", SegmentLine(*record))?;
        }
        Ok(())
    }

    pub(crate) fn print_sections(&self, sections: &List<SectionRecord>) -> io::Result<()> {
        println!(self.rt;
            "section  kind               address             size                offset              name"
        )?;
        for record in sections.records() {
            println!(self.rt; "{}", SectionLine::read(self.source, *record))?;
        }
        Ok(())
    }

    // A line for each symbol that is no stab.
    pub(crate) fn print_symbols<W: Width>(
        &self,
        reading: &Reading<&S, W>,
        sections: &List<SectionRecord>,
    ) -> io::Result<()> {
        println!(self.rt;
            "symbol  address             section      kind     scope        weak  name"
        )?;
        for number in 0..MOST_SYMBOLS {
            match SymbolLine::read(reading, sections, number) {
                Ok(Some(line)) => self.print_symbol(line)?,
                Ok(None) => {}
                Err(_) => break,
            }
        }
        Ok(())
    }

    fn print_symbol(&self, line: SymbolLine) -> io::Result<()> {
        let name = ShownName {
            source: self.source,
            name: line.name,
        };
        println!(self.rt; "{line}  {name}")
    }

    fn print_files(&self, files: &List<MapFile>) -> io::Result<()> {
        println!(self.rt; "  file  path(member)")?;
        for (number, file) in (0u64..).zip(files.records()) {
            let line = FileLine {
                source: self.source,
                number,
                file: *file,
            };
            println!(self.rt; "{line}")?;
        }
        Ok(())
    }

    fn print_entries(&self, entries: &List<MapEntry>) -> io::Result<()> {
        println!(self.rt; "address             size                  file  name")?;
        for entry in entries.records() {
            let line = EntryLine {
                source: self.source,
                entry: *entry,
            };
            println!(self.rt; "{line}")?;
        }
        Ok(())
    }

    // The object map: its files, and its entries in the order of the symbols.
    pub(crate) fn print_map<W: Width>(
        &self,
        reading: &mut Reading<&S, W>,
        sections: &List<SectionRecord>,
    ) -> io::Result<()> {
        let mut slots = MapSlots::new(self.rt.alloc(), reading, sections)?;
        let mut files = List::new(slots.files.as_mut_slice());
        let mut entries = List::new(slots.entries.as_mut_slice());
        match read_map(reading, &mut files, &mut entries) {
            Ok(()) => {
                self.print_files(&files)?;
                self.print_entries(&entries)
            }
            Err(e) => println!(self.rt; "{e}"),
        }
    }
}
