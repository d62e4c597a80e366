// What is said of the program itself, and of a command that is wrong.
use crate::file::Wanted;
use crate::streams::Kind;
use crate::{Host, words};
use std::io;
use std::io::{Print, Write};

#[derive(Clone, Copy)]
pub(crate) enum Command {
    Stream(Kind),
    Preflight,
    Exports,
    Segments,
    Imports,
    Fixups,
}

// How each of them is used.
const STREAM: &str = "rebase|bind|weak|lazy POINTER_SIZE FILE";

const PREFLIGHT: &str = "preflight rebase|bind|weak|lazy POINTER_SIZE FILE [SIZE...]";

const EXPORTS: &str = "exports FILE";

const SEGMENTS: &str = "segments FILE";

const IMPORTS: &str = "imports FILE";

const FIXUPS: &str = "fixups FILE INDEX SEGMENT_FILE BASE";

// Why a command is broken off: what is wrong is said already; or standard output cannot be written to.
#[derive(Clone, Copy)]
pub(crate) enum Stop {
    Said,
    Output(io::Error),
}

impl From<io::Error> for Stop {
    fn from(why: io::Error) -> Stop {
        Stop::Output(why)
    }
}

impl Command {
    pub(crate) fn of(word: &[u8]) -> Option<Command> {
        match word {
            b"preflight" => Some(Command::Preflight),
            b"exports" => Some(Command::Exports),
            b"segments" => Some(Command::Segments),
            b"imports" => Some(Command::Imports),
            b"fixups" => Some(Command::Fixups),
            _ => Some(Command::Stream(Kind::of(word)?)),
        }
    }

    fn usage(self) -> &'static str {
        match self {
            Command::Stream(_) => STREAM,
            Command::Preflight => PREFLIGHT,
            Command::Exports => EXPORTS,
            Command::Segments => SEGMENTS,
            Command::Imports => IMPORTS,
            Command::Fixups => FIXUPS,
        }
    }
}

pub(crate) fn help(rt: &impl Host) {
    let to = rt.output();
    all(&to);
    put(
        &to,
        "Status of ./dump: 0 where the last line is end, cut or pass, 1 where it is refused, and 2 where there is none.\n",
    );
}

pub(crate) fn version(rt: &impl Host) {
    let to = rt.output();
    put(&to, "dump 4.0.0\n");
    put(
        &to,
        "Reads little-endian rebase, bind, weak bind and lazy bind streams, exports tries, and chained fixups with pointer formats 2, 3 and 6 and import formats 1, 2 and 3.\n",
    );
}

// All commands, where no word names one.
pub(crate) fn none(rt: &impl Host) {
    all(&rt.error());
}

// A write that fails is let go. (What is said of an argument is put together piece by piece: its bytes need not be text.)
fn put(to: &impl Print, text: &str) {
    let _ = to.write_all(text.as_bytes());
}

fn all(to: &impl Print) {
    let mut label = "usage:";
    for usage in [STREAM, PREFLIGHT, EXPORTS, SEGMENTS, IMPORTS, FIXUPS] {
        let _ = println!(to; "{label} dump {usage}");
        label = "      ";
    }
    put(
        to,
        "A FILE has the bare bytes of a stream, a trie, chained fixups or a segment. One FILE of a command may be -, which is standard input.\n",
    );
    put(
        to,
        "Numbers are decimal, or hexadecimal behind 0x, and below 2^64. With --max N, no more than N items are listed.\n",
    );
    put(
        to,
        "With --raw, a FILE that begins as a Mach-O file does is read as it is.\n",
    );
}

pub(crate) fn say(rt: &impl Host, text: &str) {
    put(&rt.error(), text);
}

pub(crate) fn say_bytes(rt: &impl Host, text: &[u8]) {
    let _ = rt.error().write_all(text);
}

fn word(rt: &impl Host, i: usize) {
    let mut room = [0; words::LONGEST];
    if let Some(word) = words::argument(rt, i, &mut room) {
        say_bytes(rt, word);
    }
}

// What is wrong with an argument that a command makes something of.
pub(crate) fn unfit(rt: &impl Host, i: usize, why: &str) -> Stop {
    say(rt, "dump: ");
    word(rt, i);
    say(rt, ": ");
    say(rt, why);
    say(rt, "\n");
    Stop::Said
}

// A word that is wrong is named, and how the command is used is said behind it.
fn named(rt: &impl Host, what: &str, i: usize, why: &str) {
    say(rt, "dump: ");
    say(rt, what);
    say(rt, " \"");
    word(rt, i);
    say(rt, "\"");
    say(rt, why);
    say(rt, "\n");
}

fn used(rt: &impl Host, command: Command) -> Stop {
    let usage = command.usage();
    let _ = println!(rt.error(); "usage: dump {usage}");
    Stop::Said
}

pub(crate) fn no_command(rt: &impl Host, i: usize) -> Stop {
    named(rt, "no command", i, "");
    none(rt);
    Stop::Said
}

pub(crate) fn no_kind(rt: &impl Host, i: usize) -> Stop {
    named(rt, "no kind of stream", i, "");
    used(rt, Command::Preflight)
}

pub(crate) fn no_number(rt: &impl Host, what: &str, i: usize, command: Command) -> Stop {
    named(rt, what, i, " is no number");
    used(rt, command)
}

pub(crate) fn too_many(rt: &impl Host, i: usize, command: Command) -> Stop {
    named(rt, "one word too many,", i, "");
    used(rt, command)
}

// What is wrong with a command, but for its words.
pub(crate) fn wrong(rt: &impl Host, what: &str, command: Command) -> Stop {
    say(rt, "dump: ");
    say(rt, what);
    say(rt, "\n");
    used(rt, command)
}

// What the system did not do, and why.
pub(crate) fn fail(rt: &impl Host, what: &[u8], why: io::Error) -> Stop {
    let mut room = [0; 256];
    let mut rest = &mut room[..];
    let _ = write!(&mut rest, "{why}");
    let left = rest.len();
    let text = &room[..256usize.saturating_sub(left)];
    say_bytes(rt, what);
    say(rt, ": ");
    say_bytes(rt, unnumbered(text));
    say(rt, "\n");
    Stop::Said
}

// But for the number that the system has for an error, which stands in brackets behind the words.
fn unnumbered(text: &[u8]) -> &[u8] {
    match text.iter().rposition(|b| *b == b'(') {
        Some(n) => text[..n].trim_ascii_end(),
        None => text,
    }
}

// A file is more than what is read of it.
pub(crate) fn image(rt: &impl Host, i: usize, what: &str, wanted: Wanted) -> Stop {
    say(rt, "dump: ");
    word(rt, i);
    say(rt, what);
    say(rt, ", and this reads the bare bytes of a ");
    say(
        rt,
        match wanted {
            Wanted::Stream => {
                "stream: the load command LC_DYLD_INFO_ONLY, LC_DYLD_EXPORTS_TRIE or LC_DYLD_CHAINED_FIXUPS"
            }
            Wanted::Segment => "segment: the load command LC_SEGMENT_64 or LC_SEGMENT",
        },
    );
    say(
        rt,
        " says where they are in the file (with --raw, the file is read as it is)\n",
    );
    Stop::Said
}
