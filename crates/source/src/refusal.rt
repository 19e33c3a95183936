// Refusals: why, at which level and where something was refused.
ghost use Rattle.std.specs.Prelude.{◌≡◌};
ghost use Rattle.source.specs.Refusals.{number_of, level_of, refusal};

use std::fmt;

// Who refuses: a source, a record of the format, or the reading of a library.
#[derive(Clone, Copy, PartialEq, Eq, Debug)]
pub enum Level {
    Source,
    Record,
    Reading,
}

// Why. Each reason has one number, by which people know it, and one level.
#[derive(Clone, Copy, PartialEq, Eq, Debug)]
pub enum Reason {
    ShortHeader = 1,
    WrongMagic = 2,
    ShortCommand = 3,
    SectionsPastCommand = 4,
    SectionPastSegment = 5,
    SymbolsPastSource = 6,
    ListFull = 7,
    FinishTooEarly = 8,
    UnknownNumber = 9,
    UnreadableName = 10,
    ShortFatHeader = 11,
    WrongFatMagic = 12,
    UnknownMember = 13,
    WindowPastSource = 14,
    LengthOutOfRange = 15,
}

// A reason and a place. The place counts bytes from the source's start, unless the reason is an
// unknown number: then it is that number.
#[derive(Clone, Copy, PartialEq, Eq, Debug)]
pub struct Refusal {
    pub reason: Reason,
    pub place: u64,
}

impl Reason {
    // The number by which people know the reason.
    pub fn number(self) -> u8
        ensures { result ≡ number_of self }
    {
        self as u8
    }

    // Who refuses for this reason.
    pub fn level(self) -> Level
        ensures { result ≡ level_of self }
    {
        match self {
            Reason::ShortHeader
            | Reason::WrongMagic
            | Reason::ShortCommand
            | Reason::SectionsPastCommand
            | Reason::SymbolsPastSource
            | Reason::UnreadableName
            | Reason::ShortFatHeader
            | Reason::WrongFatMagic => Level::Record,
            Reason::SectionPastSegment
            | Reason::ListFull
            | Reason::FinishTooEarly
            | Reason::UnknownNumber
            | Reason::UnknownMember => Level::Reading,
            Reason::WindowPastSource | Reason::LengthOutOfRange => Level::Source,
        }
    }

    // The refusal for this reason at a place.
    pub fn at(self, place: u64) -> Refusal
        ensures { result ≡ refusal self place }
    {
        Refusal {
            reason: self,
            place,
        }
    }
}

impl Refusal {
    // The number of its reason.
    pub fn number(self) -> u8
        ensures { result ≡ number_of self.reason }
    {
        self.reason.number()
    }

    // The level of its reason.
    pub fn level(self) -> Level
        ensures { result ≡ level_of self.reason }
    {
        self.reason.level()
    }
}

// What a refusal says: its number, its level and its place.
pub type Said = (u8, Level, u64);

impl From<Refusal> for Said {
    ghost from_gives = { λ e said. said ≡ (number_of e.reason, level_of e.reason, e.place) };

    fn from(e: Refusal) -> Said {
        (e.number(), e.level(), e.place)
    }
}

impl fmt::Display for Level {
    fn fmt<W: fmt::Write>(&self, f: &mut fmt::Formatter<W>) -> fmt::Result {
        f.write_str(match self {
            Level::Source => "source",
            Level::Record => "record",
            Level::Reading => "reading",
        })
    }
}

// The reason in words.
impl fmt::Display for Reason {
    fn fmt<W: fmt::Write>(&self, f: &mut fmt::Formatter<W>) -> fmt::Result {
        f.write_str(match self {
            Reason::ShortHeader => "the file is shorter than a Mach-O header",
            Reason::WrongMagic => "the magic is not that of a Mach-O file",
            Reason::ShortCommand => "a load command is shorter than its record",
            Reason::SectionsPastCommand => "the sections of a segment pass its command",
            Reason::SectionPastSegment => "a section ends past its segment",
            Reason::SymbolsPastSource => "the symbols are outside the file",
            Reason::ListFull => "a list has too few free slots",
            Reason::FinishTooEarly => "the walk was to be finished before its end",
            Reason::UnknownNumber => "there is no section or symbol of that number",
            Reason::UnreadableName => "the name of a symbol cannot be read",
            Reason::ShortFatHeader => "the header or the table of a universal file is short",
            Reason::WrongFatMagic => "the magic is not that of a universal file",
            Reason::UnknownMember => "there is no member of that number",
            Reason::WindowPastSource => "a window passes its source",
            Reason::LengthOutOfRange => "a length is out of range",
        })
    }
}

// What people read: `refused 14 (source) at 3: a window passes its source`.
impl fmt::Display for Refusal {
    fn fmt<W: fmt::Write>(&self, f: &mut fmt::Formatter<W>) -> fmt::Result {
        write!(
            f,
            "refused {} ({}) at {}: {}",
            self.number(),
            self.level(),
            self.place,
            self.reason
        )
    }
}
