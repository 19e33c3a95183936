// The section, `section` and `section_64` of `loader.h`.
ghost use Rattle.std.specs.Prelude.{◌≡◌, ◌+◌, ◌^◌, ◌<◌, OnSome};
ghost use Rattle.fields.specs.Records.{section_at, section_size};

use crate::number::Fields;
use crate::width::Width;
use source::source::Source;

// The numbers of a section. Its two names stand at its place and sixteen bytes on.
#[derive(Clone, Copy, PartialEq, Eq, Debug)]
pub struct Section {
    pub addr: u64,
    pub size: u64,
    pub offset: u32,
    pub flags: u32,
}

impl Section {
    // How many bytes the record has.
    pub fn size<W: Width>() -> u64
        ensures { result ≡ section_size W.Width.wide }
    {
        W::either(68, 80)
    }

    // The section at p, exactly when all of its record is there.
    pub fn read<S: Source, W: Width>(f: Fields<S>, p: u64) -> Option<Section>
        ensures value { result ≡ section_at W.Width.wide (S.Source.bytes f.entry.source.now) p f.entry.endian }
        ensures bound { OnSome result (p + section_size W.Width.wide < 2 ^ 64) }
    {
        if !f.source.has(p, Section::size::<W>()) {
            return None;
        }
        Some(Section {
            addr: W::word_at(f, p + 32)?,
            size: W::word_at(f, p + W::either(36, 40))?,
            offset: f.u32_at(p + W::either(40, 48))?,
            flags: f.u32_at(p + W::either(56, 64))?,
        })
    }
}
