// The file header, `mach_header` and `mach_header_64` of `loader.h`.
ghost use Rattle.std.specs.Prelude.{◌≡◌};
ghost use Rattle.fields.specs.Records.{header_at, header_size, endian_of};

use crate::endian::Endianness;
use crate::number::Fields;
use crate::width::Width;
use source::source::Source;

pub const MH_MAGIC: u32 = 0xfeed_face;

pub const MH_CIGAM: u32 = 0xcefa_edfe;

pub const MH_MAGIC_64: u32 = 0xfeed_facf;

pub const MH_CIGAM_64: u32 = 0xcffa_edfe;

#[derive(Clone, Copy, PartialEq, Eq, Debug)]
pub struct MachHeader {
    pub filetype: u32,
    pub ncmds: u32,
    pub sizeofcmds: u32,
}

impl MachHeader {
    // How many bytes the record has.
    pub fn size<W: Width>() -> u64
        ensures { result ≡ header_size W.Width.wide }
    {
        W::either(28, 32)
    }

    // The header at the start of a source, exactly when all of its record is there.
    pub fn read<S: Source, W: Width>(f: Fields<S>) -> Option<MachHeader>
        ensures { result ≡ header_at W.Width.wide (S.Source.bytes f.entry.source.now) f.entry.endian }
    {
        if !f.source.has(0, MachHeader::size::<W>()) {
            return None;
        }
        Some(MachHeader {
            filetype: f.u32_at(12)?,
            ncmds: f.u32_at(16)?,
            sizeofcmds: f.u32_at(20)?,
        })
    }
}

// The byte order that a magic marks, when the magic was read big-endian.
pub fn endian_of<W: Width>(magic: u32) -> Option<Endianness>
    ensures { result ≡ endian_of W.Width.wide magic }
{
    if magic == W::either(MH_MAGIC, MH_MAGIC_64) {
        Some(Endianness::Big)
    } else if magic == W::either(MH_CIGAM, MH_CIGAM_64) {
        Some(Endianness::Little)
    } else {
        None
    }
}
