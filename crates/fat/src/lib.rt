// Universal files: one file that holds a library for each of several processors. A member is a
// run of the file, so it is handed out as a window of the same source, which is a source again.
// Below stand `source` and `fields`; above, whatever lists members or reads a library in one.
#![tactic(auto)]

ghost use Rattle.std.specs.Prelude.{◌≡◌, ℕ, ◌+◌, List, MatchResult};
ghost use Rattle.fat.specs.Members.{Fat, NotFat, count_of, Arch, NoArch, Member, NoMember};

use fields::fat::{FAT_MAGIC, FAT_MAGIC_64, FatArch, FatHeader};
use fields::width::Width;
use source::refusal::{Reason, Refusal};
use source::source::Source;
use source::window::Window;

// How many members a universal file has. Refused when the header is short, the magic is
// another, or the table passes the source.
pub fn count<S: Source, W: Width>(source: &S) -> Result<u32, Refusal>
    ensures { MatchResult result (λ n. Fat W.Width.wide (S.Source.bytes source.now) × (n ≡ count_of (S.Source.bytes source.now))) (λ e. NotFat W.Width.wide (S.Source.bytes source.now) e) }
{
    let header = FatHeader::read(source).ok_or(Reason::ShortFatHeader.at(0))?;
    if header.magic != W::either(FAT_MAGIC, FAT_MAGIC_64) {
        return Err(Reason::WrongFatMagic.at(0));
    }
    let table = u64::from(header.nfat_arch) * FatArch::size::<W>();
    if !source.has(FatHeader::SIZE, table) {
        return Err(Reason::ShortFatHeader.at(0));
    }
    Ok(header.nfat_arch)
}

// The record of a member, by its number from 0. Refused as `count` is, and then when there is no
// such member.
pub fn arch<S: Source, W: Width>(source: &S, number: u64) -> Result<FatArch, Refusal>
    ensures { MatchResult result (λ a. Arch W.Width.wide (S.Source.bytes source.now) number a) (λ e. NoArch W.Width.wide (S.Source.bytes source.now) number e) }
{
    let n = count::<S, W>(source)?;
    if number >= u64::from(n) {
        return Err(Reason::UnknownMember.at(number));
    }
    let place = FatHeader::SIZE + number * FatArch::size::<W>();
    FatArch::read::<S, W>(source, place).ok_or(Reason::ShortFatHeader.at(0))
}

// The bytes of a member. Refused as `arch` is, and then when they pass the source.
pub fn member<S: Source + Drop, W: Width>(source: S, number: u64) -> Result<Window<S>, Refusal>
    ensures { MatchResult result (λ w. (w.source ≡ source) × Member W.Width.wide (S.Source.bytes source) number w.start w.end) (λ e. NoMember W.Width.wide (S.Source.bytes source) number e) }
{
    let arch = arch::<S, W>(&source, number)?;
    Window::new(source, arch.offset, arch.size)
}
