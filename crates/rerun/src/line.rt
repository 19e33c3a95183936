// One line of a script.
use replay::calls::Call;
use std::error::Error;
use std::fmt;

// Why a line is bad.
#[derive(Clone, Copy, Debug, PartialEq, Eq)]
pub(crate) enum LineError {
    NoCall,
    TooManyCalls,
}

impl fmt::Display for LineError {
    fn fmt<W: fmt::Write>(&self, f: &mut fmt::Formatter<W>) -> fmt::Result {
        f.write_str(match self {
            LineError::NoCall => {
                "no call: step, finish, section N, find NAME, symbol N, name N or map step"
            }
            LineError::TooManyCalls => "more than 10000000 calls",
        })
    }
}

impl Error for LineError {}

fn numbered(text: &str) -> Option<Call<'static>> {
    let (word, digits) = text.split_once(' ')?;
    let number = digits.trim().parse::<u64>().ok()?;
    match word {
        "section" => Some(Call::Section(number)),
        "symbol" => Some(Call::Symbol(number)),
        "name" => Some(Call::Name(number)),
        _ => None,
    }
}

fn call_of(text: &str) -> Option<Call<'static>> {
    match text {
        "step" => Some(Call::Step),
        "finish" => Some(Call::Finish),
        "map step" => Some(Call::MapStep),
        _ => numbered(text),
    }
}

fn calls_of(text: &str) -> Option<(Call<'static>, u64)> {
    match text.split_once('*') {
        Some((call, times)) => Some((call_of(call.trim())?, times.trim().parse::<u64>().ok()?)),
        None => Some((call_of(text.trim())?, 1)),
    }
}

// The call that a line asks for, and how many times; an empty line and one that starts with # ask for
// none. The name of a search is the rest of the line, as it is.
pub(crate) fn read_line(line: &str) -> Result<Option<(Call<'_>, u64)>, LineError> {
    if let Some(name) = line.strip_prefix("find ") {
        return Ok(Some((Call::Find(name.as_bytes()), 1)));
    }
    if line.trim().is_empty() || line.starts_with('#') {
        return Ok(None);
    }
    calls_of(line).map(Some).ok_or(LineError::NoCall)
}
