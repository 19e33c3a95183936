// Whether two sources answer every call alike.
use crate::slots::{Room, Slots, commands, symbols};
use anyhow::anyhow;
use fields::width::Width;
use list::list::List;
use replay::both::replay_both;
use replay::calls::{Answer, Call, Stage};
use report::room::record_slots;
use script::same::Same;
use script::shown::{AnswerShown, CallShown};
use sections::record::{SectionRecord, SegmentRecord};
use source::refusal::Refusal;
use source::source::Source;
use stabs::map::{MapEntry, MapFile};
use std::alloc::{AllocError, Global};

// What is left of a run: the records of its lists, and the answers in the order of the calls.
#[derive(Clone, Copy)]
struct Outcome<'a> {
    segments: &'a [SegmentRecord],
    sections: &'a [SectionRecord],
    files: &'a [MapFile],
    entries: &'a [MapEntry],
    answers: &'a [Answer],
}

// Where two rows first differ; where one ends, if it is the other's beginning.
fn first_difference<T: Copy + Same>(a: &[T], b: &[T]) -> Option<usize> {
    let end = if a.len() == b.len() {
        None
    } else {
        Some(a.len().min(b.len()))
    };
    a.iter().zip(b).position(|(x, y)| !x.same(y)).or(end)
}

// The first of the lists that are not alike.
fn different_list(a: Outcome, b: Outcome) -> Option<&'static str> {
    if first_difference(a.segments, b.segments).is_some() {
        return Some("the list of segments");
    }
    if first_difference(a.sections, b.sections).is_some() {
        return Some("the list of sections");
    }
    if first_difference(a.files, b.files).is_some() {
        return Some("the list of files");
    }
    if first_difference(a.entries, b.entries).is_some() {
        return Some("the list of entries");
    }
    None
}

// The calls that read a library whole: its commands, its map, and each symbol with its name.
fn every_call<S: Source, W: Width>(
    heap: Global,
    s: &S,
    symbols: u64,
) -> Result<Vec<Call<'static>>, AllocError> {
    let mut calls = commands::<S, W>(heap, s)?;
    for n in 0..symbols {
        calls.push(Call::MapStep)?;
        calls.push(Call::Symbol(n))?;
        calls.push(Call::Name(n))?;
    }
    calls.push(Call::MapStep)?;
    Ok(calls)
}

// Why a library could not be opened.
fn refusal_of<S: Drop, W: Drop>(opened: Result<Stage<S, W>, (Refusal, S)>) -> Option<Refusal> {
    opened.err().map(|(e, _)| e)
}

fn differ(rt: &HostRuntime, what: &str) -> anyhow::Result<()> {
    println!(rt; "the halves and the whole differ in {what}")?;
    Err(anyhow!("different"))
}

// What a call answered on each.
fn tell_difference<S: Source, T: Source>(
    rt: &HostRuntime,
    call: CallShown,
    a: AnswerShown<S>,
    b: AnswerShown<T>,
) -> anyhow::Result<()> {
    println!(rt; "{call}: the halves answer {a}; the whole answers {b}")?;
    Err(anyhow!("different"))
}

// Whether the answers and the records of two runs of the same calls are the same.
fn compare<S: Source, T: Source>(
    rt: &HostRuntime,
    halves: &S,
    whole: &T,
    calls: &[Call],
    left: Outcome,
    right: Outcome,
) -> anyhow::Result<()> {
    if let Some(i) = first_difference(left.answers, right.answers) {
        let (Some(call), Some(a), Some(b)) = (
            calls.get(i),
            left.answers.get(i),
            right.answers.get(i),
        ) else {
            return differ(rt, "the number of answers");
        };
        let a = AnswerShown {
            source: halves,
            answer: *a,
        };
        let b = AnswerShown {
            source: whole,
            answer: *b,
        };
        return tell_difference(rt, CallShown(*call), a, b);
    }
    if let Some(what) = different_list(left, right) {
        return differ(rt, what);
    }
    println!(rt;
        "the halves answer as the whole does: {} calls",
        calls.len()
    )?;
    Ok(())
}

// Makes the same calls on both, and says whether all answers and records are the same.
pub(crate) fn alike<S: Source, T: Source, W: Width + Copy + Drop>(
    rt: &HostRuntime,
    halves: &S,
    whole: &T,
    width: W,
) -> anyhow::Result<()> {
    let heap = rt.alloc();
    let most = symbols(heap, halves, width)?.max(symbols(heap, whole, width)?);
    let calls = every_call::<T, W>(heap, whole, most as u64)?;
    let room = Room {
        records: record_slots::<S, W>(halves).max(record_slots::<T, W>(whole)),
        symbols: most,
        answers: calls.len(),
    };
    let mut left_slots = Slots::new(heap, room)?;
    let mut right_slots = Slots::new(heap, room)?;
    let mut left_segments = List::new(left_slots.segments.as_mut_slice());
    let mut left_sections = List::new(left_slots.sections.as_mut_slice());
    let mut left_files = List::new(left_slots.files.as_mut_slice());
    let mut left_entries = List::new(left_slots.entries.as_mut_slice());
    let mut left_answers = List::new(left_slots.answers.as_mut_slice());
    let mut right_segments = List::new(right_slots.segments.as_mut_slice());
    let mut right_sections = List::new(right_slots.sections.as_mut_slice());
    let mut right_files = List::new(right_slots.files.as_mut_slice());
    let mut right_entries = List::new(right_slots.entries.as_mut_slice());
    let mut right_answers = List::new(right_slots.answers.as_mut_slice());
    let (a, b) = replay_both(
        halves,
        whole,
        width,
        &calls,
        &mut left_segments,
        &mut left_sections,
        &mut left_files,
        &mut left_entries,
        &mut left_answers,
        &mut right_segments,
        &mut right_sections,
        &mut right_files,
        &mut right_entries,
        &mut right_answers,
    );
    let left = Outcome {
        segments: left_segments.records(),
        sections: left_sections.records(),
        files: left_files.records(),
        entries: left_entries.records(),
        answers: left_answers.records(),
    };
    let right = Outcome {
        segments: right_segments.records(),
        sections: right_sections.records(),
        files: right_files.records(),
        entries: right_entries.records(),
        answers: right_answers.records(),
    };
    match (refusal_of(a), refusal_of(b)) {
        (None, None) => compare(rt, halves, whole, &calls, left, right),
        (Some(a), Some(b)) if a == b => {
            println!(rt; "the halves and the whole are both refused: {a}")?;
            Ok(())
        }
        _ => differ(rt, "whether they can be opened"),
    }
}
