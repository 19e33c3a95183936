// The segment command, `segment_command` and `segment_command_64` of `loader.h`.
ghost use Rattle.std.specs.Prelude.{◌≡◌, ◌+◌, ◌^◌, ◌<◌, OnSome};
ghost use Rattle.fields.specs.Records.{segment_at, segment_size};

use crate::number::Fields;
use crate::width::Width;
use source::source::Source;

#[derive(Clone, Copy, PartialEq, Eq, Debug)]
pub struct Segment {
    pub fileoff: u64,
    pub filesize: u64,
    pub initprot: u32,
    pub nsects: u32,
    pub flags: u32,
}

impl Segment {
    // How many bytes the record has.
    pub fn size<W: Width>() -> u64
        ensures { result ≡ segment_size W.Width.wide }
    {
        W::either(56, 72)
    }

    // The command at p, exactly when all of its record is there.
    pub fn read<S: Source, W: Width>(f: Fields<S>, p: u64) -> Option<Segment>
        ensures value { result ≡ segment_at W.Width.wide (S.Source.bytes f.entry.source.now) p f.entry.endian }
        ensures bound { OnSome result (p + segment_size W.Width.wide < 2 ^ 64) }
    {
        if !f.source.has(p, Segment::size::<W>()) {
            return None;
        }
        Some(Segment {
            fileoff: W::word_at(f, p + W::either(32, 40))?,
            filesize: W::word_at(f, p + W::either(36, 48))?,
            initprot: f.u32_at(p + W::either(44, 60))?,
            nsects: f.u32_at(p + W::either(48, 64))?,
            flags: f.u32_at(p + W::either(52, 68))?,
        })
    }
}
