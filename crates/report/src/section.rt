// A line for each section.
ghost use Rattle.std.specs.Prelude.{◌≡◌, ◌+◌, ◌^◌, ◌<◌};
ghost use Rattle.fields.specs.Names.{name_of, name_at};

use crate::shown::Shown;
use fields::name::Name;
use sections::record::SectionRecord;
use source::source::Source;
use std::fmt;

// A section's record with its two names.
#[derive(Clone, Copy)]
pub struct SectionLine {
    listed: SectionRecord,
    segname: Name,
    sectname: Name,
}

impl SectionLine {
    // The line of a section that was listed.
    pub fn read<S: Source>(s: &S, listed: SectionRecord) -> SectionLine
        ensures listed { result.listed ≡ listed }
        ensures sectname { name_of result.sectname ≡ name_at (S.Source.bytes s.now) listed.place }
        ensures segname { listed.place + 16 < 2 ^ 64 → name_of result.segname ≡ name_at (S.Source.bytes s.now) (listed.place + 16) }
    {
        SectionLine {
            listed,
            segname: Name::read(s, listed.place.saturating_add(16)),
            sectname: Name::read(s, listed.place),
        }
    }
}

impl fmt::Display for SectionLine {
    fn fmt<W: fmt::Write>(&self, f: &mut fmt::Formatter<W>) -> fmt::Result {
        let r = self.listed;
        write!(
            f,
            "{:>7}  {:<17}  {:#018x}  {:#018x}  {:#018x}  ",
            r.number, r.kind, r.addr, r.size, r.offset
        )?;
        let segname = Shown(self.segname.as_bytes());
        let sectname = Shown(self.sectname.as_bytes());
        write!(f, "{segname},{sectname}")
    }
}
