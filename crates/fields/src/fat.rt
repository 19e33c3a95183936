// The records of a universal file, `fat_header`, `fat_arch` and `fat_arch_64` of `fat.h`.
// All of them are big-endian.
ghost use Rattle.std.specs.Prelude.{◌≡◌};
ghost use Rattle.fields.specs.Records.{fat_header_at, fat_arch_at, fat_arch_size};

use crate::number::Fields;
use crate::width::Width;
use source::source::Source;

pub const FAT_MAGIC: u32 = 0xcafe_babe;

pub const FAT_MAGIC_64: u32 = 0xcafe_babf;

#[derive(Clone, Copy, PartialEq, Eq, Debug)]
pub struct FatHeader {
    pub magic: u32,
    pub nfat_arch: u32,
}

impl FatHeader {
    pub const SIZE: u64 = 8;

    // The header at the start of a source, exactly when all of its record is there.
    pub fn read<S: Source>(s: &S) -> Option<FatHeader>
        ensures { result ≡ fat_header_at (S.Source.bytes s.now) }
    {
        let f = Fields::big_endian(s);
        Some(FatHeader {
            magic: f.u32_at(0)?,
            nfat_arch: f.u32_at(4)?,
        })
    }
}

// Where a member of a universal file is, and for which processor.
#[derive(Clone, Copy, PartialEq, Eq, Debug)]
pub struct FatArch {
    pub cputype: u32,
    pub offset: u64,
    pub size: u64,
}

impl FatArch {
    // How many bytes the record has.
    pub fn size<W: Width>() -> u64
        ensures { result ≡ fat_arch_size W.Width.wide }
    {
        W::either(20, 32)
    }

    // The record at p, exactly when all of it is there.
    pub fn read<S: Source, W: Width>(s: &S, p: u64) -> Option<FatArch>
        ensures { result ≡ fat_arch_at W.Width.wide (S.Source.bytes s.now) p }
    {
        if !s.has(p, FatArch::size::<W>()) {
            return None;
        }
        let f = Fields::big_endian(s);
        Some(FatArch {
            cputype: f.u32_at(p)?,
            offset: W::word_at(f, p + 8)?,
            size: W::word_at(f, p + W::either(12, 16))?,
        })
    }
}
