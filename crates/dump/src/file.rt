// Files, read whole into room that is lent.
ghost use Rattle.std.specs.Prelude.{◌≤◌, length, IfOk, IfSome};

use crate::usage::Stop;
use crate::words::{Call, LONGEST};
use crate::{Host, usage};
use std::env::FillError;
use std::fs::File;
use std::io;
use std::io::Read;

// What is read of a file.
#[derive(Clone, Copy)]
pub(crate) enum Wanted {
    Stream,
    Segment,
}

// A file, read to the start of the room, and how many bytes it has. One that begins as a Mach-O file does is not what is
// asked for, unless it is to be read as it is.
pub(crate) fn load(
    call: &Call<'_, impl Host>,
    i: usize,
    wanted: Wanted,
    room: &mut [u8],
) -> Result<usize, Stop>
    ensures { IfOk result (λ n. n ≤ length room.new) }
{
    let filled = read(call.rt, i, room);
    if !call.words.raw {
        not_an_image(call.rt, i, wanted, room)?;
    }
    match filled? {
        Some(n) => Ok(n),
        None => Err(usage::unfit(
            call.rt,
            i,
            "larger than the room; the files of a command have less than 7 MiB in all",
        )),
    }
}

// A Mach-O file has 32 or 64 bits and either order of bytes; and a fat one has several. Behind a file that is shorter the
// room has zeros.
fn not_an_image(rt: &impl Host, i: usize, wanted: Wanted, room: &[u8]) -> Result<(), Stop> {
    match room {
        [0xca, 0xfe, 0xba, 0xbe | 0xbf, ..] => {
            Err(usage::image(rt, i, " is a fat file of Mach-O files", wanted))
        }
        [0xfe, 0xed, 0xfa, 0xce | 0xcf, ..] | [0xce | 0xcf, 0xfa, 0xed, 0xfe, ..] => {
            Err(usage::image(rt, i, " is a Mach-O file", wanted))
        }
        _ => Ok(()),
    }
}

// Reads the file that an argument names into the room. There is no number of bytes where the room is full. (A number and
// not the part: the room is looked into even where the reading failed.)
fn read(rt: &impl Host, i: usize, room: &mut [u8]) -> Result<Option<usize>, Stop>
    ensures { IfOk result (λ o. IfSome o (λ n. n ≤ length room.new)) }
{
    let mut path = [0; LONGEST];
    match rt.arg(i, &mut path) {
        Ok(n) => read_named(rt, &path[..n], room),
        Err(FillError::TooLong) => Err(unnamed(rt, "File name too long")),
        Err(FillError::NotPresent) => Err(unnamed(rt, "Invalid argument")),
    }
}

fn unnamed(rt: &impl Host, why: &str) -> Stop {
    usage::say(rt, "dump: a file's name: ");
    usage::say(rt, why);
    usage::say(rt, "\n");
    Stop::Said
}

// A file, or standard input.
fn read_named(rt: &impl Host, path: &[u8], room: &mut [u8]) -> Result<Option<usize>, Stop>
    ensures { IfOk result (λ o. IfSome o (λ n. n ≤ length room.new)) }
{
    let filled = if matches!(path, b"-") {
        fill(&mut rt.reader(), room)
    } else {
        match std::str::from_utf8(path) {
            Ok(name) => read_file(rt, name, room),
            Err(_) => return Err(nameless(rt, path)),
        }
    };
    match filled {
        Ok(filled) => Ok(filled),
        Err(why) => {
            usage::say(rt, "dump: ");
            Err(usage::fail(rt, path, why))
        }
    }
}

// The system is asked for a file by text alone.
fn nameless(rt: &impl Host, path: &[u8]) -> Stop {
    usage::say(rt, "dump: ");
    usage::say_bytes(rt, path);
    usage::say(rt, ": a name that is not UTF-8\n");
    Stop::Said
}

fn read_file(rt: &impl Host, name: &str, room: &mut [u8]) -> io::Result<Option<usize>>
    ensures { IfOk result (λ o. IfSome o (λ n. n ≤ length room.new)) }
{
    let mut file = File::open(rt, name)?;
    fill(&mut file, room)
}

// Reads to the end of the file, of which a read that gives nothing tells. So a room that is full may not hold
// all of it. (A `while`: it goes on by as many bytes as the system gives.)
fn fill(file: &mut impl Read, room: &mut [u8]) -> io::Result<Option<usize>>
    ensures { IfOk result (λ o. IfSome o (λ n. n ≤ length room.new)) }
{
    let mut end = 0;
    while end < room.len() {
        let more = file.read(&mut room[end..])?;
        if more == 0 {
            return Ok(Some(end));
        }
        end += more;
    }
    Ok(None)
}
