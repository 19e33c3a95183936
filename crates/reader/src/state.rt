// What a walk keeps from step to step, and what a step answers.
ghost use Rattle.std.specs.Prelude.{◌≡◌};

use fields::endian::Endianness;
use fields::load_command::SymtabCommand;
use fields::number::Fields;
use sections::offset::SectionOffsets;
use sections::record::SectionTable;
use stabs::cursor::MapCursor;

// How far a walk has come. The command table is the bytes from the header's end up to `table_end`;
// the next command stands at `place`, and `left` commands are counted that have not been treated.
#[derive(Clone, Copy, PartialEq, Eq, Debug)]
pub struct State {
    pub endian: Endianness,
    pub filetype: u32,
    pub place: u64,
    pub left: u32,
    pub table_end: u64,
    pub over: bool,
    pub symtab: Option<SymtabCommand>,
}

impl State {
    // A source, in the byte order of its header.
    pub(crate) fn fields<'a, S>(&self, source: &'a S) -> Fields<'a, S>
        ensures source { result.source.now ≡ source.now }
        ensures endian { result.endian ≡ self.now.endian }
    {
        Fields {
            source,
            endian: self.endian,
        }
    }
}

// What one step did: listed a segment, noted where the symbols are, passed another command, or came
// to the end of the commands, or to one that cannot stand.
#[derive(Clone, Copy, PartialEq, Eq, Debug)]
pub enum StepAnswer {
    Segment,
    Symbols,
    Passed,
    End,
    Broken,
}

// The next command cannot stand.
#[derive(Clone, Copy, PartialEq, Eq, Debug)]
pub struct Damage;

// A segment that may be listed: its sections, where the search for their offsets begins, and
// whether a true sum of them reaches 2^64.
#[derive(Clone, Copy, PartialEq, Eq, Debug)]
pub struct SegmentPlan {
    pub table: SectionTable,
    pub offsets: SectionOffsets,
    pub wrapped: bool,
}

// What a command asks for.
#[derive(Clone, Copy, PartialEq, Eq, Debug)]
pub enum Deed {
    List(SegmentPlan),
    Remember(SymtabCommand),
}

// How far the object map has come: how many symbols are passed, and the cursor after them.
#[derive(Clone, Copy, PartialEq, Eq, Debug)]
pub struct MapState {
    pub passed: u32,
    pub cursor: MapCursor,
}

// What a step of the object map did: it passed a symbol, or came to the end of them.
#[derive(Clone, Copy, PartialEq, Eq, Debug)]
pub enum MapAnswer {
    Passed,
    End,
}
