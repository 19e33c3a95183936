// Walks over small libraries that are made here, and over damaged ones.
use fields::width::Bits64;
use list::list::List;
use reader::state::StepAnswer;
use reader::walk::open;
use sections::kind::SectionKind;
use sections::record::{SectionRecord, SegmentRecord};
use source::padded::Padded;
use source::plain::Plain;
use source::refusal::{Level, Said};
use source::source::Source;
use std::process::Abort;
use std::test::Fail;

// A header with one command of 232 bytes: a segment from 0 of 0x1_0000_0100 bytes with two sections,
// stored at 0xffff_ff00 with 0x100 bytes and at 0x10 with 0x20 bytes.
const LARGE: &[u8] =
    b"\xcf\xfa\xed\xfe\0\0\0\0\0\0\0\0\x06\0\0\0\x01\0\0\0\xe8\0\0\0\0\0\0\0\0\0\0\0\
    \x19\0\0\0\xe8\0\0\0__TEXT\0\0\0\0\0\0\0\0\0\0\0\0\0\0\0\0\0\0\0\x01\0\0\x01\0\0\0\
    \0\0\0\0\0\0\0\0\0\x01\0\0\x01\0\0\0\x05\0\0\0\x05\0\0\0\x02\0\0\0\0\0\0\0\
    __text\0\0\0\0\0\0\0\0\0\0__TEXT\0\0\0\0\0\0\0\0\0\0\
    \0\0\0\0\0\0\0\0\0\x01\0\0\0\0\0\0\0\xff\xff\xff\0\0\0\0\0\0\0\0\0\0\0\0\0\x04\0\x80\0\0\0\0\0\0\0\0\0\0\0\0\
    __const\0\0\0\0\0\0\0\0\0__TEXT\0\0\0\0\0\0\0\0\0\0\
    \0\0\0\0\0\0\0\0 \0\0\0\0\0\0\0\x10\0\0\0\0\0\0\0\0\0\0\0\0\0\0\0\0\0\0\0\0\0\0\0\0\0\0\0\0\0\0\0";

// A header with one symtab command, whose symbols begin at 79, of which there are none.
const SYMTAB: &[u8] =
    b"\xcf\xfa\xed\xfe\0\0\0\0\0\0\0\0\x01\0\0\0\x01\0\0\0\x18\0\0\0\0\0\0\0\0\0\0\0\
    \x02\0\0\0\x18\0\0\0\x4f\0\0\0\0\0\0\0\0\0\0\0\0\0\0\0";

// What a source is refused with when it is opened and stepped to its end with so many slots.
fn refusal_of<S: Source>(rt: &impl Abort, s: &S, slots: usize) -> Result<(u8, Level, u64), Fail> {
    let mut segments = [SegmentRecord::default(); 2];
    let mut sections = [SectionRecord::default(); 2];
    assert!(rt; slots <= 2);
    let mut segments = List::new(&mut segments[0..slots]);
    let mut sections = List::new(&mut sections);
    let mut walk = match open(s, Bits64) {
        Ok(walk) => walk,
        Err((e, _)) => return Ok(Said::from(e)),
    };
    for _ in 0..4 {
        if let Err(e) = walk.step(&mut segments, &mut sections) {
            assert_eq!(rt; segments.count(), 0);
            assert_eq!(rt; sections.count(), 0);
            return Ok(Said::from(e));
        }
    }
    Err(Fail::new("no refusal"))
}

#[test]
fn a_segment_beyond_4_gib_is_listed_at_its_true_offsets(rt: HostRuntime) -> Result<(), Fail> {
    let s = Padded::new(LARGE, 0x1_0000_0100)?;
    let mut segments = [SegmentRecord::default(); 1];
    let mut sections = [SectionRecord::default(); 2];
    let mut segments = List::new(&mut segments);
    let mut sections = List::new(&mut sections);
    let mut walk = open(&s, Bits64).map_err(|(e, _)| e)?;
    assert_eq!(rt;
        walk.step(&mut segments, &mut sections)?,
        StepAnswer::Segment
    );
    let (early, mut walk) = walk.finish().err().ok_or("finished too early")?;
    assert_eq!(rt; Said::from(early), (8, Level::Reading, 264));
    assert_eq!(rt; walk.step(&mut segments, &mut sections)?, StepAnswer::End);
    assert_eq!(rt; walk.step(&mut segments, &mut sections)?, StepAnswer::End);
    let reading = walk.finish().map_err(|(e, _)| e)?;
    let first = reading.section(&sections, 1)?;
    assert_eq!(rt; first.offset, 0xffff_ff00);
    assert_eq!(rt; first.kind, SectionKind::Text);
    assert_eq!(rt; first.place, 104);
    let second = reading.section(&sections, 2)?;
    assert_eq!(rt; second.offset, 0x1_0000_0010);
    assert_eq!(rt; second.kind, SectionKind::ReadOnlyData);
    assert_eq!(rt; second.number, 2);
    assert!(rt; reading.section(&sections, 0).is_err());
    assert!(rt; reading.section(&sections, 3).is_err());
    let found = reading.find(&sections, b".const").ok_or("const")?;
    assert_eq!(rt; found.number, 2);
    assert!(rt; reading.find(&sections, b".data").is_none());
    let segment = segments.get(0).ok_or("segment")?;
    assert_eq!(rt; segment.first, 1);
    assert_eq!(rt; segment.count, 2);
    assert!(rt; !segment.wrapped);
    Ok(())
}

#[test]
fn refusals_name_their_places(rt: HostRuntime) -> Result<(), Fail> {
    assert_eq!(rt; refusal_of(&rt, &Plain(b""), 2)?, (1, Level::Record, 0));
    assert_eq!(rt;
        refusal_of(&rt, &Plain(&LARGE[0..31]), 2)?,
        (1, Level::Record, 0)
    );
    assert_eq!(rt;
        refusal_of(&rt, &Padded::new(b"\xce\xfa\xed\xfe", 32)?, 2)?,
        (2, Level::Record, 0)
    );
    assert_eq!(rt;
        refusal_of(&rt, &Padded::new(LARGE, 0x1_0000_0100)?, 0)?,
        (7, Level::Reading, 32)
    );
    assert_eq!(rt;
        refusal_of(&rt, &Padded::new(SYMTAB, 78)?, 2)?,
        (6, Level::Record, 32)
    );
    Ok(())
}

#[test]
fn a_table_past_the_source_is_broken(rt: HostRuntime) -> Result<(), Fail> {
    let mut segments = [SegmentRecord::default(); 1];
    let mut sections = [SectionRecord::default(); 1];
    let mut segments = List::new(&mut segments);
    let mut sections = List::new(&mut sections);
    let s = Plain(&LARGE[0..263]);
    let mut walk = open(&s, Bits64).map_err(|(e, _)| e)?;
    assert_eq!(rt;
        walk.step(&mut segments, &mut sections)?,
        StepAnswer::Broken
    );
    assert_eq!(rt; walk.step(&mut segments, &mut sections)?, StepAnswer::End);
    assert!(rt; walk.finish().is_ok());
    Ok(())
}
