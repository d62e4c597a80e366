// Prints what a file holds of what the loader reads: a line for each item, and a closing line that says how the
// list ends. The files are the bare streams, tries, chained fixups and segments.

#![tactic(auto)]

mod chained;
mod closing;
mod exports;
mod file;
mod fixups;
mod flight;
mod line;
mod streams;
mod usage;
mod words;

use file::{Wanted, load};
use line::Lines;
use std::io::{ErrorKind, Input, Stderr, Stdout};
use std::rt::{Env, Files};
use usage::{Command, Stop};
use words::{Call, Words};

// Room for the bytes of all the files that a command reads, one byte of it spare.
const ROOM: usize = 7 * 1024 * 1024;

// What is asked of the system: the arguments, files and standard input, and the two streams that are written to.
pub(crate) trait Host: Env + Files + Input {
    fn output(&self) -> Stdout;

    fn error(&self) -> Stderr;
}

impl Host for HostRuntime {
    fn output(&self) -> Stdout {
        self.stdout()
    }

    fn error(&self) -> Stderr {
        self.stderr()
    }
}

fn main(rt: HostRuntime) {
    let mut room = [0; ROOM];
    let words = words::collect(&rt);
    if words.help {
        usage::help(&rt);
    } else if words.version {
        usage::version(&rt);
    } else if let [command, ..] = words.kept() {
        run(&rt, *command, &words, &mut room);
    } else {
        usage::none(&rt);
    }
}

// Where standard output cannot be written to, the reason is said; but where nobody reads on, nothing is. (The room comes
// as an array: made a slice where it stands, its seven million elements would be counted.)
fn run(rt: &impl Host, i: usize, words: &Words, room: &mut [u8; ROOM]) {
    if let Err(Stop::Output(why)) = list(rt, i, words, &mut room[..]) {
        if why.kind() != ErrorKind::BrokenPipe {
            usage::fail(rt, b"dump: standard output", why);
        }
    }
}

fn list(rt: &impl Host, i: usize, words: &Words, room: &mut [u8]) -> Result<(), Stop> {
    let call = Call::start(rt, i, words)?;
    let max = call.most()?;
    let mut lines = Lines::start(rt.output());
    match call.command {
        Command::Stream(kind) => streams::list(&call, kind, max, room, &mut lines),
        Command::Preflight => flight::judge(&call, room, &mut lines),
        Command::Exports => Ok(exports::list(only(&call, room)?, max, &mut lines)?),
        Command::Segments => Ok(chained::list_segments(only(&call, room)?, max, &mut lines)?),
        Command::Imports => Ok(chained::list_imports(only(&call, room)?, max, &mut lines)?),
        Command::Fixups => fixups::list(&call, max, room, &mut lines),
    }
}

// The bytes of the file that is the only word behind a command.
fn only<'r>(call: &Call<'_, impl Host>, room: &'r mut [u8]) -> Result<&'r [u8], Stop> {
    let [_, file] = call.all::<2>()?;
    let n = load(call, file, Wanted::Stream, room)?;
    Ok(&room[..n])
}
