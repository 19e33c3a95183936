// Prints what a library file holds.
#![tactic(auto)]

mod file;
mod frames;
mod library;
mod listing;
mod tables;

use anyhow::anyhow;
use file::read_file;
use frames::{Extent, answer_frames};
use listing::{Ask, Printer};
use source::join::Join;
use source::plain::Plain;
use std::env;
use std::process::ExitCode;

const USAGE: &str =
    "usage: inspect FILE, or inspect FIRST SECOND for a file in two halves, or inspect --find NAME FILE, or inspect --frames; inspect --help has the rest";

const HELP: &str = "usage: inspect FILE                list the segments and sections of a file
       inspect FIRST SECOND        the same, of a file in two halves
       inspect --all FILE          list its symbols and its object map too
       inspect --all FIRST SECOND  the same, of a file in two halves
       inspect --find NAME FILE    print the section that a name means
       inspect --symbols FILE      print the symbols alone
       inspect --map FILE          print the object map alone
       inspect --frames            answer frames of standard input with their canonical texts
       inspect --all-frames        the same, with symbols and object maps
       inspect --help              print this";

// What the words of the command line ask for.
enum Command<'a> {
    Help,
    Frames(Extent),
    File(&'a str, Ask<'a>),
    Halves(&'a str, &'a str, Ask<'a>),
}

impl<'a> Command<'a> {
    fn parse(words: &[&'a str]) -> Option<Command<'a>> {
        match *words {
            ["--help"] => Some(Command::Help),
            ["--frames"] => Some(Command::Frames(Extent::Sections)),
            ["--all-frames"] => Some(Command::Frames(Extent::Whole)),
            [path] => Some(Command::File(path, Ask::Sections)),
            ["--all", path] => Some(Command::File(path, Ask::All)),
            ["--symbols", path] => Some(Command::File(path, Ask::Symbols)),
            ["--map", path] => Some(Command::File(path, Ask::Map)),
            [first, second] => Some(Command::Halves(first, second, Ask::Sections)),
            ["--find", name, path] => Some(Command::File(path, Ask::Find(name))),
            ["--all", first, second] => Some(Command::Halves(first, second, Ask::All)),
            _ => None,
        }
    }

    fn run(self, rt: &HostRuntime) -> anyhow::Result<()> {
        match self {
            Command::Help => Ok(rt.println(HELP)?),
            Command::Frames(extent) => answer_frames(rt, extent),
            Command::File(path, ask) => print_file(rt, path, ask),
            Command::Halves(first, second, ask) => print_halves(rt, first, second, ask),
        }
    }
}

fn print_file(rt: &HostRuntime, path: &str, ask: Ask) -> anyhow::Result<()> {
    let bytes = read_file(rt, path)?;
    let source = &Plain(&bytes);
    print!(rt; "{path}: ")?;
    Printer { rt, source, ask }.print()?;
    Ok(())
}

// Two halves as one file.
fn print_halves(rt: &HostRuntime, first: &str, second: &str, ask: Ask) -> anyhow::Result<()> {
    let front = read_file(rt, first)?;
    let back = read_file(rt, second)?;
    print!(rt; "{first} and {second}: ")?;
    match Join::new(Plain(&front), Plain(&back)) {
        Ok(both) => {
            let source = &both;
            Printer { rt, source, ask }.print()?;
        }
        Err(e) => println!(rt; "{e}")?,
    }
    Ok(())
}

// Each program has the lines below for itself: no clause can say what a program prints, so no
// library has them.
fn usage(rt: &HostRuntime) -> anyhow::Result<()> {
    eprintln!(rt; "{USAGE}")?;
    Err(anyhow!("usage"))
}

fn run(rt: &HostRuntime) -> anyhow::Result<()> {
    // One word more than the longest command has tells that there are too many.
    let args: Vec<String> = env::args(rt)?.skip(1).take(4).collect(rt.alloc())?;
    let words: Vec<&str> = args.iter().map(|word| word.as_str()).collect(rt.alloc())?;
    match Command::parse(&words) {
        Some(command) => command.run(rt),
        None => usage(rt),
    }
}

// What went wrong was said in one line where it was seen; the status tells of it, and of a write that
// failed.
fn main(rt: HostRuntime) -> ExitCode {
    match run(&rt) {
        Ok(()) => ExitCode::SUCCESS,
        Err(_) => ExitCode::FAILURE,
    }
}
