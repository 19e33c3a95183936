// One library, and runs of calls on it.
use fields::width::Bits64;
use list::list::List;
use reader::state::{MapAnswer, StepAnswer};
use replay::both::replay_both;
use replay::calls::{Answer, Call};
use replay::driver::replay;
use sections::record::{SectionRecord, SegmentRecord};
use source::join::Join;
use source::padded::Padded;
use source::plain::Plain;
use source::refusal::{Level, Said};
use source::span::Span;
use stabs::map::{MapEntry, MapFile};
use std::process::Abort;
use std::test::Fail;
use symbols::symbol::{SymbolKind, SymbolSection};

// A dylib of two commands: a segment from 0 of 0x1_0000_0100 bytes with the sections __text, stored at
// 0xffff_ff00 with 0x100 bytes, and __const, stored at 0x10 with 0x20 bytes; and a table of six symbols
// at 288 with nine bytes of strings at 384: a source file, the object file `a.o`, the opening of `f` at
// 16 and its closing of 8 bytes, the static `g` at 64, and the function `f` in section 1.
const LIBRARY: &[u8] =
    b"\xcf\xfa\xed\xfe\0\0\0\0\0\0\0\0\x06\0\0\0\x02\0\0\0\0\x01\0\0\0\0\0\0\0\0\0\0\
    \x19\0\0\0\xe8\0\0\0__TEXT\0\0\0\0\0\0\0\0\0\0\0\0\0\0\0\0\0\0\0\x01\0\0\x01\0\0\0\
    \0\0\0\0\0\0\0\0\0\x01\0\0\x01\0\0\0\x05\0\0\0\x05\0\0\0\x02\0\0\0\0\0\0\0\
    __text\0\0\0\0\0\0\0\0\0\0__TEXT\0\0\0\0\0\0\0\0\0\0\
    \0\0\0\0\0\0\0\0\0\x01\0\0\0\0\0\0\0\xff\xff\xff\0\0\0\0\0\0\0\0\0\0\0\0\0\x04\0\x80\0\0\0\0\0\0\0\0\0\0\0\0\
    __const\0\0\0\0\0\0\0\0\0__TEXT\0\0\0\0\0\0\0\0\0\0\
    \0\0\0\0\0\0\0\0 \0\0\0\0\0\0\0\x10\0\0\0\0\0\0\0\0\0\0\0\0\0\0\0\0\0\0\0\0\0\0\0\0\0\0\0\0\0\0\0\
    \x02\0\0\0\x18\0\0\0\x20\x01\0\0\x06\0\0\0\x80\x01\0\0\x09\0\0\0\
    \0\0\0\0\x64\0\0\0\0\0\0\0\0\0\0\0\
    \x01\0\0\0\x66\0\x01\0\0\0\0\0\0\0\0\0\
    \x05\0\0\0\x24\x01\0\0\x10\0\0\0\0\0\0\0\
    \0\0\0\0\x24\0\0\0\x08\0\0\0\0\0\0\0\
    \x07\0\0\0\x26\x01\0\0\x40\0\0\0\0\0\0\0\
    \x05\0\0\0\x0f\x01\0\0\x10\0\0\0\0\0\0\0\
    \0a.o\0f\0g\0";

// Calls in any order: some before the walk is finished, which are skipped, and some that are refused.
const CALLS: [Call<'static>; 20] = [
    Call::MapStep,
    Call::Finish,
    Call::Step,
    Call::Step,
    Call::Step,
    Call::Finish,
    Call::Step,
    Call::Section(2),
    Call::Section(3),
    Call::Find(b"__const"),
    Call::Symbol(5),
    Call::Symbol(6),
    Call::Name(1),
    Call::MapStep,
    Call::MapStep,
    Call::MapStep,
    Call::MapStep,
    Call::MapStep,
    Call::MapStep,
    Call::MapStep,
];

// What a refusal says.
fn refused(answer: Option<Answer>) -> Result<Said, Fail> {
    match answer {
        Some(Answer::Refused(e)) => Ok(Said::from(e)),
        _ => Err(Fail::new("no refusal")),
    }
}

// What the walk answers, and what is refused.
fn check_walk(rt: &impl Abort, answers: &List<Answer>) -> Result<(), Fail> {
    assert_eq!(rt; answers.get(0), Some(Answer::Skipped));
    assert_eq!(rt; refused(answers.get(1))?, (8, Level::Reading, 32));
    assert_eq!(rt; answers.get(2), Some(Answer::Stepped(StepAnswer::Segment)));
    assert_eq!(rt; answers.get(3), Some(Answer::Stepped(StepAnswer::Symbols)));
    assert_eq!(rt; answers.get(4), Some(Answer::Stepped(StepAnswer::End)));
    assert_eq!(rt; answers.get(5), Some(Answer::Finished));
    assert_eq!(rt; answers.get(6), Some(Answer::Skipped));
    assert_eq!(rt; refused(answers.get(8))?, (9, Level::Reading, 3));
    assert_eq!(rt; refused(answers.get(11))?, (9, Level::Reading, 6));
    Ok(())
}

// What the reading answers of sections and symbols.
fn check_reading(rt: &impl Abort, answers: &List<Answer>) -> Result<(), Fail> {
    match (
        answers.get(7),
        answers.get(9),
        answers.get(10),
        answers.get(12),
    ) {
        (
            Some(Answer::Listed(second)),
            Some(Answer::Found(Some(found))),
            Some(Answer::Known(Some(symbol))),
            Some(Answer::Named(name)),
        ) => {
            assert_eq!(rt; second.number, 2);
            assert_eq!(rt; second.offset, 0x1_0000_0010);
            assert_eq!(rt; found.number, 2);
            assert_eq!(rt; symbol.address, 16);
            assert_eq!(rt; symbol.section, SymbolSection::Section(1));
            assert_eq!(rt; symbol.kind, SymbolKind::Text);
            assert_eq!(rt; name, Span { start: 385, len: 3 });
            Ok(())
        }
        _ => Err(Fail::new("another answer")),
    }
}

// What the map steps answer: six symbols are passed.
fn check_map(rt: &impl Abort, answers: &List<Answer>) -> Result<(), Fail> {
    let passed = [Answer::Mapped(MapAnswer::Passed); 6];
    assert_eq!(rt; answers.records().get(13..19), Some(passed.as_slice()));
    assert_eq!(rt; answers.get(19), Some(Answer::Mapped(MapAnswer::End)));
    Ok(())
}

// The records that are left.
fn check_records(
    rt: &impl Abort,
    sections: &List<SectionRecord>,
    files: &List<MapFile>,
    entries: &List<MapEntry>,
) -> Result<(), Fail> {
    match (sections.records(), files.records(), entries.records()) {
        ([section, _], [file], [f, g]) => {
            assert_eq!(rt; section.offset, 0xffff_ff00);
            assert_eq!(rt; file.path, Span { start: 385, len: 3 });
            assert_eq!(rt; file.member, None);
            assert_eq!(rt; (f.address, f.size, f.file), (16, 8, 0));
            assert_eq!(rt; f.name, Span { start: 389, len: 1 });
            assert_eq!(rt; (g.address, g.size, g.file), (64, 0, 0));
            assert_eq!(rt; g.name, Span { start: 391, len: 1 });
            Ok(())
        }
        _ => Err(Fail::new("a record is missing or too many")),
    }
}

// The slots of a run's lists and answers.
#[derive(Drop)]
struct Slots {
    segments: [SegmentRecord; 1],
    sections: [SectionRecord; 2],
    files: [MapFile; 1],
    entries: [MapEntry; 2],
    answers: [Answer; 20],
}

impl Slots {
    fn new() -> Slots {
        Slots {
            segments: [SegmentRecord::default(); 1],
            sections: [SectionRecord::default(); 2],
            files: [MapFile::default(); 1],
            entries: [MapEntry::default(); 2],
            answers: [Answer::Skipped; 20],
        }
    }
}

fn check(
    rt: &impl Abort,
    sections: &List<SectionRecord>,
    files: &List<MapFile>,
    entries: &List<MapEntry>,
    answers: &List<Answer>,
) -> Result<(), Fail> {
    check_walk(rt, answers)?;
    check_reading(rt, answers)?;
    check_map(rt, answers)?;
    check_records(rt, sections, files, entries)
}

#[test]
fn a_run_on_a_library_beyond_4_gib_leaves_what_the_rules_say(rt: HostRuntime) -> Result<(), Fail> {
    let s = Padded::new(LIBRARY, 0x1_0000_0100)?;
    let mut slots = Slots::new();
    let mut segments = List::new(&mut slots.segments);
    let mut sections = List::new(&mut slots.sections);
    let mut files = List::new(&mut slots.files);
    let mut entries = List::new(&mut slots.entries);
    let mut answers = List::new(&mut slots.answers);
    let r = replay(
        &s,
        Bits64,
        &CALLS,
        &mut segments,
        &mut sections,
        &mut files,
        &mut entries,
        &mut answers,
    );
    assert!(rt; r.is_ok());
    check(&rt, &sections, &files, &entries, &answers)
}

#[test]
fn two_halves_answer_as_the_whole_does(rt: HostRuntime) -> Result<(), Fail> {
    let back = Padded::new(&LIBRARY[200..], 0x1_0000_0100 - 200)?;
    let halves = Join::new(Plain(&LIBRARY[0..200]), back)?;
    let whole = Padded::new(LIBRARY, 0x1_0000_0100)?;
    let mut left_slots = Slots::new();
    let mut right_slots = Slots::new();
    let mut left_segments = List::new(&mut left_slots.segments);
    let mut left_sections = List::new(&mut left_slots.sections);
    let mut left_files = List::new(&mut left_slots.files);
    let mut left_entries = List::new(&mut left_slots.entries);
    let mut left_answers = List::new(&mut left_slots.answers);
    let mut right_segments = List::new(&mut right_slots.segments);
    let mut right_sections = List::new(&mut right_slots.sections);
    let mut right_files = List::new(&mut right_slots.files);
    let mut right_entries = List::new(&mut right_slots.entries);
    let mut right_answers = List::new(&mut right_slots.answers);
    let (a, b) = replay_both(
        &halves,
        &whole,
        Bits64,
        &CALLS,
        &mut left_segments,
        &mut left_sections,
        &mut left_files,
        &mut left_entries,
        &mut left_answers,
        &mut right_segments,
        &mut right_sections,
        &mut right_files,
        &mut right_entries,
        &mut right_answers,
    );
    assert!(rt; a.is_ok() && b.is_ok());
    check(
        &rt,
        &left_sections,
        &left_files,
        &left_entries,
        &left_answers,
    )?;
    check(
        &rt,
        &right_sections,
        &right_files,
        &right_entries,
        &right_answers,
    )
}
