// The words of the command line.
ghost use Rattle.std.specs.Prelude.{◌+◌, ◌^◌, ◌<◌, ◌≤◌};

use crate::usage::{Command, Stop};
use crate::{Host, usage};
use std::env::FillError;

// As many words as a command can make something of: a preflight, its kind, pointer size and file, and one
// size more than there may be.
const MOST: usize = 21;

// The longest argument that is read, which holds any path.
pub(crate) const LONGEST: usize = 4096;

// The words but for --max and its number, --raw, --help and --version: where they stand among the arguments, and how
// many are kept; where the number behind --max should stand; and whether there are the other three. (An array with its
// length beside it: the program has no heap.)
#[derive(Clone, Copy)]
pub(crate) struct Words {
    at: [usize; MOST],
    count: usize,
    limit: Option<usize>,
    pub(crate) raw: bool,
    pub(crate) help: bool,
    pub(crate) version: bool,
    ghost within: { count ≤ 21 },
}

pub(crate) fn collect(rt: &impl Host) -> Words {
    let mut words = Words::none();
    let mut room = [0; LONGEST];
    for i in 1..usize::MAX {
        let Some(word) = argument(rt, i, &mut room) else {
            break;
        };
        if words.limit != Some(i) {
            words.add(i, word);
        }
    }
    words
}

impl Words {
    fn none() -> Words {
        Words {
            at: [0; MOST],
            count: 0,
            limit: None,
            raw: false,
            help: false,
            version: false,
        }
    }

    fn add(&mut self, i: usize, word: &[u8])
        requires { i + 1 < 2 ^ 64 }
    {
        match word {
            b"--max" => self.limit = Some(i + 1),
            b"--raw" => self.raw = true,
            b"--help" => self.help = true,
            b"--version" => self.version = true,
            _ => {
                if self.count < MOST {
                    self.at[self.count] = i;
                    self.count += 1;
                }
            }
        }
    }

    pub(crate) fn kept(&self) -> &[usize] {
        &self.at[..self.count]
    }
}

// A command that is called: the system that is asked, the command and its words.
#[derive(Drop)]
pub(crate) struct Call<'h, H> {
    pub(crate) rt: &'h H,
    pub(crate) command: Command,
    pub(crate) words: &'h Words,
}

impl<'h, H: Host> Call<'h, H> {
    // That of the command that an argument names.
    pub(crate) fn start(rt: &'h H, i: usize, words: &'h Words) -> Result<Call<'h, H>, Stop> {
        let mut room = [0; LONGEST];
        let word = argument(rt, i, &mut room).unwrap_or(&[]);
        match Command::of(word) {
            Some(command) => Ok(Call { rt, command, words }),
            None => Err(usage::no_command(rt, i)),
        }
    }

    // The most items that are to be listed.
    pub(crate) fn most(&self) -> Result<u64, Stop> {
        let Some(i) = self.words.limit else {
            return Ok(u64::MAX);
        };
        let mut room = [0; LONGEST];
        if argument(self.rt, i, &mut room).is_none() {
            return Err(self.wrong("--max lacks its number"));
        }
        self.number(i, "--max")
    }

    // The words, which are so many.
    pub(crate) fn all<const N: usize>(&self) -> Result<[usize; N], Stop> {
        let kept = self.words.kept();
        match (kept.first_chunk::<N>(), kept.get(N)) {
            (None, _) => Err(self.wrong("too few words")),
            (_, Some(i)) => Err(usage::too_many(self.rt, *i, self.command)),
            (Some(words), None) => Ok(*words),
        }
    }

    // The number that an argument is, of something that the command takes.
    pub(crate) fn number(&self, i: usize, what: &str) -> Result<u64, Stop> {
        let mut room = [0; LONGEST];
        let word = argument(self.rt, i, &mut room).unwrap_or(&[]);
        match numerals::read(word) {
            Some(n) => Ok(n),
            None => Err(usage::no_number(self.rt, what, i, self.command)),
        }
    }

    // The same of a pointer size. One that no byte holds is unfit as 0 is.
    pub(crate) fn pointer_size(&self, i: usize) -> Result<u8, Stop> {
        let n = self.number(i, "pointer size")?;
        Ok(u8::try_from(n).unwrap_or(0))
    }

    pub(crate) fn wrong(&self, what: &str) -> Stop {
        usage::wrong(self.rt, what, self.command)
    }
}

// An argument. One that the room does not hold is as an empty one.
pub(crate) fn argument<'r>(
    rt: &impl Host,
    i: usize,
    room: &'r mut [u8; LONGEST],
) -> Option<&'r [u8]> {
    match rt.arg(i, room) {
        Ok(n) => Some(&room[..n]),
        Err(FillError::TooLong) => Some(&[]),
        Err(FillError::NotPresent) => None,
    }
}

// Whether an argument is standard input.
pub(crate) fn is_input(rt: &impl Host, i: usize) -> bool {
    let mut room = [0; LONGEST];
    matches!(argument(rt, i, &mut room), Some(b"-"))
}
