// What a file holds, by the magic that it begins with.
ghost use Rattle.std.specs.Prelude.{◌≡◌};
ghost use Rattle.fields.specs.Kinds.{kind_of};

use crate::endian::Endianness;
use crate::fat::{FAT_MAGIC, FAT_MAGIC_64};
use crate::header::{MH_CIGAM, MH_CIGAM_64, MH_MAGIC, MH_MAGIC_64};
use crate::number::Fields;
use source::source::Source;
use std::fmt;

// Any other file is of a kind too, since the kind is what is printed.
#[derive(Clone, Copy, PartialEq, Eq, Debug)]
pub enum FileKind {
    MachO32(Endianness),
    MachO64(Endianness),
    MachOFat32,
    MachOFat64,
    Other,
}

impl FileKind {
    // The kind of file that a source begins as.
    pub fn of<S: Source>(s: &S) -> FileKind
        ensures { result ≡ kind_of (S.Source.bytes s.now) }
    {
        match Fields::big_endian(s).u32_at(0) {
            Some(MH_MAGIC) => FileKind::MachO32(Endianness::Big),
            Some(MH_CIGAM) => FileKind::MachO32(Endianness::Little),
            Some(MH_MAGIC_64) => FileKind::MachO64(Endianness::Big),
            Some(MH_CIGAM_64) => FileKind::MachO64(Endianness::Little),
            Some(FAT_MAGIC) => FileKind::MachOFat32,
            Some(FAT_MAGIC_64) => FileKind::MachOFat64,
            _ => FileKind::Other,
        }
    }
}

impl fmt::Display for FileKind {
    fn fmt<W: fmt::Write>(&self, f: &mut fmt::Formatter<W>) -> fmt::Result {
        let words = match self {
            FileKind::MachO32(Endianness::Little) => "32-bit little-endian Mach-O",
            FileKind::MachO32(Endianness::Big) => "32-bit big-endian Mach-O",
            FileKind::MachO64(Endianness::Little) => "64-bit little-endian Mach-O",
            FileKind::MachO64(Endianness::Big) => "64-bit big-endian Mach-O",
            FileKind::MachOFat32 => "universal file with 32-bit records",
            FileKind::MachOFat64 => "universal file with 64-bit records",
            FileKind::Other => "something else",
        };
        f.write_str(words)
    }
}
