// Replays a journal: the files that are named as arguments, one after the other, or standard input.
#![tactic(auto)]

mod answer;
mod call;
mod field;
mod line;
mod name;
mod note;
mod number;
mod refusal;
mod replay;
mod tally;
mod unreadable;
mod words;
mod written;

use replay::{Replay, Stopped};
use std::fs::File;
use std::io::{BufReader, BufWriter, Read, Write};
use std::process::ExitCode;
use std::{env, fmt, io};

// Why the program ends with status 1.
#[derive(Drop)]
enum Failure {
    Arguments(io::Error),
    Input(io::Error),
    File(String, io::Error),
    Output(io::Error),
}

impl Failure {
    // Why the replay of a source stopped, where a line that could not be read fails as `unread` says.
    fn of<F: FnOnce(io::Error) -> Failure>(stopped: Stopped, unread: F) -> Failure
        requires { F.IsAlwaysCallable unread }
    {
        match stopped {
            Stopped::Read(error) => unread(error),
            Stopped::Write(error) => Failure::Output(error),
        }
    }
}

impl fmt::Display for Failure {
    fn fmt<W: fmt::Write>(&self, f: &mut fmt::Formatter<W>) -> fmt::Result {
        match self {
            Failure::Arguments(error) => write!(f, "arguments: {error}"),
            Failure::Input(error) => write!(f, "standard input: {error}"),
            Failure::File(name, error) => write!(f, "{name}: {error}"),
            Failure::Output(error) => write!(f, "standard output: {error}"),
        }
    }
}

fn main(rt: HostRuntime) -> ExitCode {
    match start(&rt) {
        Ok(()) => ExitCode::SUCCESS,
        Err(failure) => {
            let _ = eprintln!(rt; "journal: {failure}");
            ExitCode::FAILURE
        }
    }
}

fn start(rt: &HostRuntime) -> Result<(), Failure> {
    let out = BufWriter::new(rt.alloc(), rt.stdout()).map_err(Failure::Output)?;
    run(rt, &mut Replay::new(rt.alloc(), out))
}

fn run<W: Write>(rt: &HostRuntime, replay: &mut Replay<W>) -> Result<(), Failure> {
    let mut names = env::args(rt).map_err(Failure::Arguments)?;
    let _program = names.next();
    if names.len() == 0 {
        read(rt, replay, rt.stdin()).map_err(|stopped| Failure::of(stopped, Failure::Input))?;
    }
    for name in names {
        read_file(rt, replay, name.as_str()).map_err(|stopped| Failure::of(
            stopped,
            |error| Failure::File(name, error),
        ))?;
    }
    replay.write_sum().map_err(Failure::Output)
}

fn read_file<W: Write>(
    rt: &HostRuntime,
    replay: &mut Replay<W>,
    name: &str,
) -> Result<(), Stopped> {
    let file = File::open(rt, name).map_err(Stopped::Read)?;
    read(rt, replay, file)
}

fn read<W: Write, R: Read + Drop>(
    rt: &HostRuntime,
    replay: &mut Replay<W>,
    source: R,
) -> Result<(), Stopped> {
    let mut input = BufReader::new(rt.alloc(), source).map_err(Stopped::Read)?;
    replay.read_all(&mut input)
}
