// The calls of a script.
use crate::line::{LineError, read_line};
use replay::calls::Call;

// A script may ask for so many calls.
const MOST_CALLS: u64 = 10_000_000;

fn add<'a>(calls: &mut Vec<Call<'a>>, call: Call<'a>, times: u64) -> anyhow::Result<()> {
    if times > MOST_CALLS.saturating_sub(calls.len() as u64) {
        return Err(LineError::TooManyCalls.into());
    }
    for _ in 0..times {
        calls.push(call)?;
    }
    Ok(())
}

// Adds what a line asks for.
fn take<'a>(calls: &mut Vec<Call<'a>>, line: &'a str) -> anyhow::Result<()> {
    match read_line(line)? {
        Some((call, times)) => add(calls, call, times),
        None => Ok(()),
    }
}

// The calls that the text of a script asks for. One line says where it is bad.
pub(crate) fn read_calls<'a>(
    rt: &HostRuntime,
    path: &str,
    text: &'a str,
) -> anyhow::Result<Vec<Call<'a>>> {
    let mut calls = Vec::new(rt.alloc());
    for (number, piece) in (1u64..).zip(text.split('\n')) {
        let line = piece.strip_suffix('\r').unwrap_or(piece);
        if let Err(e) = take(&mut calls, line) {
            eprintln!(rt; "rerun: {path}: line {number}: {e}")?;
            return Err(e);
        }
    }
    Ok(calls)
}
