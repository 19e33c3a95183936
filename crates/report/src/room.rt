// How much room a library wants, by what its header says.
ghost use Rattle.std.specs.Prelude.{◌≡◌, length};
ghost use Rattle.report.specs.Rooms.{header_of, record_room, step_room};

use fields::header::{MachHeader, endian_of};
use fields::number::Fields;
use fields::width::Width;
use source::source::Source;

// No library has more symbols, since a number of 32 bits counts them.
pub const MOST_SYMBOLS: u64 = u32::MAX as u64;

// The header of a library, in the byte order that its magic marks. To open one is another thing: it
// tells a short header from a wrong magic.
fn header<S: Source, W: Width>(s: &S) -> Option<MachHeader>
    ensures { result ≡ header_of W.Width.wide (S.Source.bytes s.now) }
{
    let magic = Fields::big_endian(s).u32_at(0)?;
    let endian = endian_of::<W>(magic)?;
    MachHeader::read::<S, W>(Fields { source: s, endian })
}

// How many slots suffice for the segments, or for the sections: each has a record of 56 bytes or more
// in the command table.
pub fn record_slots<S: Source, W: Width>(s: &S) -> usize
    ensures { result ≡ record_room (length (S.Source.bytes s.now)) (header_of W.Width.wide (S.Source.bytes s.now)) }
{
    match header::<S, W>(s) {
        Some(header) => (s.len().min(u64::from(header.sizeofcmds)) / 56) as usize,
        None => 0,
    }
}

// How many steps come to the end of the commands: each has 8 bytes or more, and there is one step
// more.
pub fn steps<S: Source, W: Width>(s: &S) -> u64
    ensures { result ≡ step_room (length (S.Source.bytes s.now)) (header_of W.Width.wide (S.Source.bytes s.now)) }
{
    match header::<S, W>(s) {
        Some(header) => (s.len() / 8).min(u64::from(header.ncmds)) + 1,
        None => 1,
    }
}
