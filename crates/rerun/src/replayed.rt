// A script's calls, made on a library.
use crate::slots::{Room, Slots, symbols};
use fields::width::Width;
use list::list::List;
use replay::calls::Call;
use replay::driver::replay;
use report::room::record_slots;
use script::shown::{AnswerShown, CallShown};
use source::source::Source;

// Makes the calls, and prints a line for each.
pub(crate) fn replayed<S: Source, W: Width + Copy + Drop>(
    rt: &HostRuntime,
    source: &S,
    width: W,
    calls: &[Call],
) -> anyhow::Result<()> {
    let room = Room {
        records: record_slots::<S, W>(source),
        symbols: symbols(rt.alloc(), source, width)?,
        answers: calls.len(),
    };
    let mut slots = Slots::new(rt.alloc(), room)?;
    let mut segments = List::new(slots.segments.as_mut_slice());
    let mut sections = List::new(slots.sections.as_mut_slice());
    let mut files = List::new(slots.files.as_mut_slice());
    let mut entries = List::new(slots.entries.as_mut_slice());
    let mut answers = List::new(slots.answers.as_mut_slice());
    let ran = replay(
        source,
        width,
        calls,
        &mut segments,
        &mut sections,
        &mut files,
        &mut entries,
        &mut answers,
    );
    if let Err((e, _)) = ran {
        println!(rt; "open: {e}")?;
        return Ok(());
    }
    for (call, answer) in calls.iter().zip(answers.records()) {
        let answer = *answer;
        println!(rt; "{}: {}", CallShown(*call), AnswerShown { source, answer })?;
    }
    Ok(())
}
