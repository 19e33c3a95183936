// Names as they are read.
ghost use Rattle.std.specs.Prelude.{◌≡◌};
ghost use Rattle.fields.specs.Names.{name_of, name_at};

use crate::name::Name;
use source::source::Source;

impl Name {
    // The name in the field of sixteen bytes at p. Bytes past the source count as zero.
    pub fn read<S: Source>(s: &S, p: u64) -> Name
        ensures { name_of result ≡ name_at (S.Source.bytes s.now) p }
    {
        let rest = s.len().saturating_sub(p);
        // By position, which is the length of the name where it ends.
        let mut bytes = [0u8; 16];
        for i in 0..16usize {
            if i as u64 >= rest {
                return Name { bytes, len: i };
            }
            let b = s.byte(p + i as u64).unwrap_or(0);
            if b == 0 {
                return Name { bytes, len: i };
            }
            bytes[i] = b;
        }
        Name { bytes, len: 16 }
    }

    // The name, without the zeros after it.
    pub fn as_bytes(&self) -> &[u8]
        ensures { result.now ≡ name_of self.now }
    {
        &self.bytes[..self.len]
    }
}
