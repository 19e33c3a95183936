// The kind of a section, by its segment's name and its flags.
ghost use Rattle.std.specs.Prelude.{◌≡◌};
ghost use Rattle.sections.specs.Kinds.{class_of, type_of, kind_of};

use std::fmt;

// What a section holds.
#[derive(Clone, Copy, PartialEq, Eq, Debug, Default)]
pub enum SectionKind {
    #[default]
    Unknown,
    Text,
    Data,
    ReadOnlyData,
    ReadOnlyString,
    UninitializedData,
    Tls,
    UninitializedTls,
    TlsVariables,
    Debug,
}

// The segment of what is for a debugger.
const DWARF: &[u8] = b"__DWARF";

// The bits of the flags that hold the type.
const SECTION_TYPE: u32 = 0x0000_00ff;

pub const S_ATTR_PURE_INSTRUCTIONS: u32 = 0x8000_0000;

pub const S_ATTR_SOME_INSTRUCTIONS: u32 = 0x0000_0400;

pub const S_ATTR_DEBUG: u32 = 0x0200_0000;

// The section types whose sections have no bytes in the file.
pub const S_ZEROFILL: u8 = 0x01;

pub const S_GB_ZEROFILL: u8 = 0x0c;

pub const S_THREAD_LOCAL_ZEROFILL: u8 = 0x12;

// The kind that each section type says, from S_REGULAR to S_INIT_FUNC_OFFSETS, or none where the
// flags and the segment decide. One fixed table of all types is the form that the design names.
const CLASSES: [Option<SectionKind>; 23] = [
    None,
    Some(SectionKind::UninitializedData),
    Some(SectionKind::ReadOnlyString),
    Some(SectionKind::ReadOnlyData),
    Some(SectionKind::ReadOnlyData),
    Some(SectionKind::ReadOnlyData),
    None,
    None,
    Some(SectionKind::Text),
    None,
    None,
    None,
    Some(SectionKind::UninitializedData),
    None,
    Some(SectionKind::ReadOnlyData),
    Some(SectionKind::Unknown),
    None,
    Some(SectionKind::Tls),
    Some(SectionKind::UninitializedTls),
    Some(SectionKind::TlsVariables),
    None,
    None,
    None,
];

// The type of a section with these flags.
pub(crate) fn type_of(flags: u32) -> u8
    ensures { result ≡ type_of flags }
{
    (flags & SECTION_TYPE) as u8
}

// The kind that a section type says, or none where the flags and the segment decide; types that
// the format does not have are unknown.
pub fn class_of(t: u8) -> Option<SectionKind>
    ensures { result ≡ class_of t }
{
    if usize::from(t) < CLASSES.len() {
        CLASSES[usize::from(t)]
    } else {
        Some(SectionKind::Unknown)
    }
}

// The kind of a section. `read_only` is what the segment says of writing.
pub fn kind_of(segname: &[u8], flags: u32, read_only: bool) -> SectionKind
    ensures { result ≡ kind_of segname.now flags read_only }
{
    if segname == DWARF {
        return SectionKind::Debug;
    }
    if flags & S_ATTR_DEBUG != 0 {
        return SectionKind::Unknown;
    }
    match class_of(type_of(flags)) {
        Some(kind) => kind,
        None if flags & (S_ATTR_PURE_INSTRUCTIONS | S_ATTR_SOME_INSTRUCTIONS) != 0 => {
            SectionKind::Text
        }
        None if read_only => SectionKind::ReadOnlyData,
        None => SectionKind::Data,
    }
}

impl fmt::Display for SectionKind {
    fn fmt<W: fmt::Write>(&self, f: &mut fmt::Formatter<W>) -> fmt::Result {
        f.pad(match self {
            SectionKind::Unknown => "Unknown",
            SectionKind::Text => "Text",
            SectionKind::Data => "Data",
            SectionKind::ReadOnlyData => "ReadOnlyData",
            SectionKind::ReadOnlyString => "ReadOnlyString",
            SectionKind::UninitializedData => "UninitializedData",
            SectionKind::Tls => "Tls",
            SectionKind::UninitializedTls => "UninitializedTls",
            SectionKind::TlsVariables => "TlsVariables",
            SectionKind::Debug => "Debug",
        })
    }
}
