// Unsigned numbers of 2, 4 and 8 bytes at a place of a source. A number of one byte is a byte.
ghost use Rattle.std.specs.Prelude.{◌≡◌};
ghost use Rattle.source.specs.Bytes.{run};
ghost use Rattle.fields.specs.declared.endian.Endianness.TheVariants.{Big};
ghost use Rattle.fields.specs.Numbers.{ordered, whole, field};

use crate::endian::Endianness;
use source::source::Source;

// A source, and the byte order in which its numbers are read.
#[derive_where(Clone, Copy)]
pub struct Fields<'a, S> {
    pub source: &'a S,
    pub endian: Endianness,
}

// The three readers differ in their types alone: each is two lines over `bytes_at`, and a trait of
// the three types would have an impl of those lines for each. The number is made in either order before one is
// taken, since the compiler then sees that the bytes are one number, and reads it at once; of bytes that
// are turned round first it reads each by itself.
impl<'a, S: Source> Fields<'a, S> {
    // The numbers of a source that are big-endian whatever the file is.
    pub fn big_endian(source: &'a S) -> Fields<'a, S>
        ensures source { result.source.now ≡ source.now }
        ensures endian { result.endian ≡ Big }
    {
        Fields {
            source,
            endian: Endianness::Big,
        }
    }

    // The N bytes at p, where they all remain.
    fn bytes_at<const N: usize>(self, p: u64) -> Option<[u8; N]>
        ensures { result ≡ whole (S.bytes self.entry.source.now) p N (run p N (S.bytes self.entry.source.now)) }
    {
        if !self.source.has(p, N as u64) {
            return None;
        }
        // By position: a loop over `iter_mut` speaks of loans, and leaves four goals where this leaves none.
        let mut bytes = [0u8; N];
        for i in 0..N {
            bytes[i] = self.source.byte(p + i as u64)?;
        }
        Some(bytes)
    }

    // What is right in this byte order, of what is in either.
    fn ordered<T: Drop>(self, little: T, big: T) -> T
        ensures { result ≡ ordered self.entry.endian little big }
    {
        match self.endian {
            Endianness::Little => little,
            Endianness::Big => big,
        }
    }

    pub fn u16_at(self, p: u64) -> Option<u16>
        ensures { result ≡ field (S.bytes self.entry.source.now) p 2 self.entry.endian }
    {
        let bytes = self.bytes_at::<2>(p)?;
        Some(self.ordered(u16::from_le_bytes(bytes), u16::from_be_bytes(bytes)))
    }

    pub fn u32_at(self, p: u64) -> Option<u32>
        ensures { result ≡ field (S.bytes self.entry.source.now) p 4 self.entry.endian }
    {
        let bytes = self.bytes_at::<4>(p)?;
        Some(self.ordered(u32::from_le_bytes(bytes), u32::from_be_bytes(bytes)))
    }

    pub fn u64_at(self, p: u64) -> Option<u64>
        ensures { result ≡ field (S.bytes self.entry.source.now) p 8 self.entry.endian }
    {
        let bytes = self.bytes_at::<8>(p)?;
        Some(self.ordered(u64::from_le_bytes(bytes), u64::from_be_bytes(bytes)))
    }
}
