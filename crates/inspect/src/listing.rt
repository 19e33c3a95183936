// What is printed of a source, for people.
use crate::library::{ListingSlots, read_library};
use fat::{count, member};
use fields::kind::FileKind;
use fields::width::{Bits32, Bits64, Width};
use list::list::List;
use reader::reading::Reading;
use report::member::MemberLine;
use report::section::SectionLine;
use sections::record::{SectionRecord, SegmentRecord};
use source::source::Source;
use std::io;

// What is asked of a library: its segments and sections, these with symbols and object map, the
// section that a name means, or one table. An enum and no closure, since it is what the words of the
// command line say.
#[derive(Clone, Copy)]
pub(crate) enum Ask<'a> {
    Sections,
    All,
    Find(&'a str),
    Symbols,
    Map,
}

// Where it is printed, of which source, and what is asked.
#[derive(Drop)]
pub(crate) struct Printer<'a, S> {
    pub(crate) rt: &'a HostRuntime,
    pub(crate) source: &'a S,
    pub(crate) ask: Ask<'a>,
}

impl<'a, S: Source> Printer<'a, S> {
    // What the source holds.
    pub(crate) fn print(&self) -> io::Result<()> {
        let kind = FileKind::of(self.source);
        println!(self.rt; "{} bytes, {kind}", self.source.len())?;
        match kind {
            FileKind::MachOFat32 => self.print_members::<Bits32>(),
            FileKind::MachOFat64 => self.print_members::<Bits64>(),
            FileKind::MachO32(_) | FileKind::MachO64(_) | FileKind::Other => self.print_thin(kind),
        }
    }

    // A line for each member of a universal file, and then what each holds.
    fn print_members<W: Width>(&self) -> io::Result<()> {
        let members = match count::<S, W>(self.source) {
            Ok(n) => u64::from(n),
            Err(e) => return println!(self.rt; "{e}"),
        };
        println!(self.rt; "member  cpu       offset              size                holds")?;
        for number in 0..members {
            match MemberLine::read::<S, W>(self.source, number) {
                Ok(line) => println!(self.rt; "{line}")?,
                Err(e) => println!(self.rt; "{number:>6}  {e}")?,
            }
        }
        for number in 0..members {
            self.print_member::<W>(number)?;
        }
        Ok(())
    }

    // A member of a universal file, under a line of its own.
    fn print_member<W: Width>(&self, number: u64) -> io::Result<()> {
        let Ok(window) = member::<&S, W>(self.source, number) else {
            return Ok(());
        };
        let kind = FileKind::of(&window);
        println!(self.rt; "member {number}: {kind}")?;
        let printer = Printer {
            rt: self.rt,
            source: &window,
            ask: self.ask,
        };
        printer.print_thin(kind)
    }

    // A thin file, by its width.
    fn print_thin(&self, kind: FileKind) -> io::Result<()> {
        match kind {
            FileKind::MachO32(_) => self.print_library(Bits32),
            FileKind::MachO64(_) => self.print_library(Bits64),
            FileKind::MachOFat32 | FileKind::MachOFat64 | FileKind::Other => Ok(()),
        }
    }

    // A library at one width.
    fn print_library<W: Width + Drop>(&self, width: W) -> io::Result<()> {
        let mut slots = ListingSlots::new::<S, W>(self.rt.alloc(), self.source)?;
        let mut segments = List::new(slots.segments.as_mut_slice());
        let mut sections = List::new(slots.sections.as_mut_slice());
        match read_library(self.source, width, &mut segments, &mut sections) {
            Ok(mut reading) => self.print_reading(&mut reading, &segments, &sections),
            Err(e) => println!(self.rt; "{e}"),
        }
    }

    // What is asked of a reading.
    fn print_reading<W: Width>(
        &self,
        reading: &mut Reading<&S, W>,
        segments: &List<SegmentRecord>,
        sections: &List<SectionRecord>,
    ) -> io::Result<()> {
        match self.ask {
            Ask::Sections => {
                self.print_segments(segments)?;
                self.print_sections(sections)
            }
            Ask::All => {
                self.print_segments(segments)?;
                self.print_sections(sections)?;
                self.print_symbols(reading, sections)?;
                self.print_map(reading, sections)
            }
            Ask::Find(name) => self.print_found(reading, sections, name),
            Ask::Symbols => self.print_symbols(reading, sections),
            Ask::Map => self.print_map(reading, sections),
        }
    }

    // The section that a name means.
    fn print_found<W: Width>(
        &self,
        reading: &Reading<&S, W>,
        sections: &List<SectionRecord>,
        name: &str,
    ) -> io::Result<()> {
        match reading.find(sections, name.as_bytes()) {
            Some(record) => println!(self.rt; "{}", SectionLine::read(self.source, record)),
            None => println!(self.rt; "no section {name}"),
        }
    }
}
