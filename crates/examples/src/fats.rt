// Universal files, whole and damaged.
use fat::{arch, count, member};
use fields::width::{Bits32, Bits64};
use source::plain::Plain;
use source::refusal::{Level, Said};
use source::source::Source;
use std::test::Fail;

// Two members: the four bytes after the table, and a run that passes the file.
const TWO: &[u8] = b"\xca\xfe\xba\xbe\0\0\0\x02\
    \x01\0\0\x07\0\0\0\x03\0\0\0\x30\0\0\0\x04\0\0\0\0\
    \x01\0\0\x0c\0\0\0\0\0\0\0\x30\0\0\0\x05\0\0\0\0abcd";

// One member of no bytes at the very end.
const WIDE: &[u8] = b"\xca\xfe\xba\xbf\0\0\0\x01\
    \x01\0\0\x07\0\0\0\x03\0\0\0\0\0\0\0\x28\0\0\0\0\0\0\0\0\0\0\0\0\0\0\0\0";

#[test]
fn members_are_windows_of_the_file(rt: HostRuntime) -> Result<(), Fail> {
    let s = Plain(TWO);
    assert_eq!(rt; count::<Plain, Bits32>(&s)?, 2);
    assert_eq!(rt; arch::<Plain, Bits32>(&s, 1)?.cputype, 0x0100_000c);
    let w = member::<&Plain, Bits32>(&s, 0)?;
    assert_eq!(rt; w.len(), 4);
    assert_eq!(rt; w.byte(0), Some(b'a'));
    assert_eq!(rt; w.byte(3), Some(b'd'));
    let w = member::<Plain, Bits64>(Plain(WIDE), 0)?;
    assert_eq!(rt; w.len(), 0);
    Ok(())
}

#[test]
fn refusals_come_in_their_order(rt: HostRuntime) -> Result<(), Fail> {
    // the bytes, the member asked for at 32 bits, and the refusal
    let cases = [
        (&TWO[0..7], 9, (11, Level::Record, 0)),
        (b"\xca\xfe\xba\xbf\0\0\0\x09", 9, (12, Level::Record, 0)),
        (&TWO[0..47], 9, (11, Level::Record, 0)),
        (&TWO[0..48], 2, (13, Level::Reading, 2)),
        (TWO, u64::MAX, (13, Level::Reading, u64::MAX)),
        (&TWO[0..48], 0, (14, Level::Source, 0x30)),
        (TWO, 1, (14, Level::Source, 0x30)),
        (b"", 0, (11, Level::Record, 0)),
        (
            b"\xca\xfe\xba\xbe\xff\xff\xff\xff",
            0,
            (11, Level::Record, 0),
        ),
        (b"\xca\xfe\xba\xbe\0\0\0\0", 0, (13, Level::Reading, 0)),
    ];
    for (bytes, number, expected) in cases {
        let refusal = member::<Plain, Bits32>(Plain(bytes), number).err();
        assert_eq!(rt; refusal.map(Said::from), Some(expected));
    }
    Ok(())
}
