// Makes calls on a library file, and says what they answer.
#![tactic(auto)]

mod alike;
mod file;
mod line;
mod load;
mod replayed;
mod slots;

use alike::alike;
use anyhow::anyhow;
use fields::kind::FileKind;
use fields::width::{Bits32, Bits64};
use file::{complain, read_file, read_text};
use load::read_calls;
use replayed::replayed;
use source::join::Join;
use source::plain::Plain;
use std::env;
use std::process::ExitCode;

const USAGE: &str = "usage: rerun --replay SCRIPT FILE | --same FIRST SECOND WHOLE | --help";

const HELP: &str =
    "usage: rerun --replay SCRIPT FILE          make the calls of a script, and print each answer
       rerun --same FIRST SECOND WHOLE     make every call on two halves and on the whole, and compare
       rerun --help                        print this
a script has a call on each line: step, finish, section N, find NAME, symbol N, name N, map step;
a count repeats a call, as in step * 100; empty lines and lines that start with # are passed over";

// What the words of the command line ask for.
enum Command<'a> {
    Help,
    Replay {
        script: &'a str,
        path: &'a str,
    },
    Same {
        first: &'a str,
        second: &'a str,
        whole: &'a str,
    },
}

impl<'a> Command<'a> {
    fn parse(words: &[&'a str]) -> Option<Command<'a>> {
        match *words {
            ["--help"] => Some(Command::Help),
            ["--replay", script, path] => Some(Command::Replay { script, path }),
            ["--same", first, second, whole] => Some(Command::Same {
                first,
                second,
                whole,
            }),
            _ => None,
        }
    }

    fn run(self, rt: &HostRuntime) -> anyhow::Result<()> {
        match self {
            Command::Help => Ok(rt.println(HELP)?),
            Command::Replay { script, path } => replay_file(rt, script, path),
            Command::Same {
                first,
                second,
                whole,
            } => same_files(rt, first, second, whole),
        }
    }
}

fn replay_file(rt: &HostRuntime, script: &str, path: &str) -> anyhow::Result<()> {
    let text = read_text(rt, script)?;
    let calls = read_calls(rt, script, text.as_str())?;
    let bytes = read_file(rt, path)?;
    let source = Plain(&bytes);
    match FileKind::of(&source) {
        FileKind::MachO32(_) => replayed(rt, &source, Bits32, &calls),
        FileKind::MachO64(_) => replayed(rt, &source, Bits64, &calls),
        _ => complain(rt, path, anyhow!("no thin Mach-O file")),
    }
}

fn same_files(rt: &HostRuntime, first: &str, second: &str, path: &str) -> anyhow::Result<()> {
    let front = read_file(rt, first)?;
    let back = read_file(rt, second)?;
    let bytes = read_file(rt, path)?;
    let whole = Plain(&bytes);
    let Ok(halves) = Join::new(Plain(&front), Plain(&back)) else {
        return complain(rt, first, anyhow!("the halves are too long"));
    };
    match FileKind::of(&whole) {
        FileKind::MachO32(_) => alike(rt, &halves, &whole, Bits32),
        FileKind::MachO64(_) => alike(rt, &halves, &whole, Bits64),
        _ => complain(rt, path, anyhow!("no thin Mach-O file")),
    }
}

// Each program has the lines below for itself: no clause can say what a program prints, so no
// library has them.
fn usage(rt: &HostRuntime) -> anyhow::Result<()> {
    eprintln!(rt; "{USAGE}")?;
    Err(anyhow!("usage"))
}

fn run(rt: &HostRuntime) -> anyhow::Result<()> {
    // One word more than the longest command has tells that there are too many.
    let args: Vec<String> = env::args(rt)?.skip(1).take(5).collect(rt.alloc())?;
    let words: Vec<&str> = args.iter().map(|word| word.as_str()).collect(rt.alloc())?;
    match Command::parse(&words) {
        Some(command) => command.run(rt),
        None => usage(rt),
    }
}

// What went wrong was said in one line where it was seen; the status tells of it, and of a write that
// failed.
fn main(rt: HostRuntime) -> ExitCode {
    match run(&rt) {
        Ok(()) => ExitCode::SUCCESS,
        Err(_) => ExitCode::FAILURE,
    }
}
