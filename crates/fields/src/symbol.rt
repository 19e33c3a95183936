// The symbol, `nlist` and `nlist_64` of `nlist.h`.
ghost use Rattle.std.specs.Prelude.{◌≡◌};
ghost use Rattle.fields.specs.Records.{nlist_at, nlist_size};

use crate::number::Fields;
use crate::width::Width;
use source::source::Source;

#[derive(Clone, Copy, PartialEq, Eq, Debug)]
pub struct Nlist {
    pub n_strx: u32,
    pub n_type: u8,
    pub n_sect: u8,
    pub n_desc: u16,
    pub n_value: u64,
}

impl Nlist {
    // How many bytes the record has.
    pub fn size<W: Width>() -> u64
        ensures { result ≡ nlist_size W.Width.wide }
    {
        W::either(12, 16)
    }

    // The symbol at p, exactly when all of its record is there.
    pub fn read<S: Source, W: Width>(f: Fields<S>, p: u64) -> Option<Nlist>
        ensures { result ≡ nlist_at W.Width.wide (S.Source.bytes f.entry.source.now) p f.entry.endian }
    {
        if !f.source.has(p, Nlist::size::<W>()) {
            return None;
        }
        Some(Nlist {
            n_strx: f.u32_at(p)?,
            n_type: f.source.byte(p + 4)?,
            n_sect: f.source.byte(p + 5)?,
            n_desc: f.u16_at(p + 6)?,
            n_value: W::word_at(f, p + 8)?,
        })
    }
}
