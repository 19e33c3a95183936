// A line for each member of a universal file.
ghost use Rattle.std.specs.Prelude.{◌≡◌, MatchResult};
ghost use Rattle.fat.specs.Members.{Arch, NoArch};
ghost use Rattle.report.specs.Members.{Holds};

use crate::cpu::CpuType;
use fat::arch;
use fields::fat::FatArch;
use fields::kind::FileKind;
use fields::width::Width;
use source::refusal::Refusal;
use source::source::Source;
use source::window::Window;
use std::fmt;

// A member's number and record, and what its bytes begin as, or why they cannot be had.
#[derive(Clone, Copy)]
pub struct MemberLine {
    number: u64,
    arch: FatArch,
    holds: Result<FileKind, Refusal>,
}

// What the bytes that a record names begin as.
fn held_kind<S: Source>(s: &S, arch: FatArch) -> Result<FileKind, Refusal>
    ensures { Holds (S.Source.bytes s.now) arch result }
{
    let member = Window::new(s, arch.offset, arch.size)?;
    Ok(FileKind::of(&member))
}

impl MemberLine {
    // The line of a member, by its number from 0; refused as its record is.
    pub fn read<S: Source, W: Width>(s: &S, number: u64) -> Result<MemberLine, Refusal>
        ensures { MatchResult result (λ l. (l.number ≡ number) × Arch W.Width.wide (S.Source.bytes s.now) number l.arch × Holds (S.Source.bytes s.now) l.arch l.holds) (λ e. NoArch W.Width.wide (S.Source.bytes s.now) number e) }
    {
        let arch = arch::<S, W>(s, number)?;
        Ok(MemberLine {
            number,
            arch,
            holds: held_kind(s, arch),
        })
    }
}

impl fmt::Display for MemberLine {
    fn fmt<W: fmt::Write>(&self, f: &mut fmt::Formatter<W>) -> fmt::Result {
        let arch = self.arch;
        write!(
            f,
            "{:>6}  {:<8}  {:#018x}  {:#018x}  ",
            self.number,
            CpuType::from(arch.cputype),
            arch.offset,
            arch.size
        )?;
        match self.holds {
            Ok(kind) => write!(f, "{kind}"),
            Err(e) => write!(f, "{e}"),
        }
    }
}
