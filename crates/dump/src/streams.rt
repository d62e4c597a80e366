// Rebase and bind streams.
use crate::closing::{Ending, Source};
use crate::file::{Wanted, load};
use crate::flight::{first_fault, place};
use crate::line::Lines;
use crate::usage::Stop;
use crate::words::Call;
use crate::{Host, closing};
use bind::{Bind, BindStarts, BindWalk};
use listing::{Registers, Walk};
use preflight::Fault;
use rebase::{Rebase, RebaseStarts, RebaseWalk};
use refusal::Refusal;
use runs::Step;
use std::io::{self, Write};

#[derive(Clone, Copy)]
pub(crate) enum Kind {
    Rebase,
    Plain,
    Weak,
    Lazy,
}

impl Kind {
    pub(crate) fn of(word: &[u8]) -> Option<Kind> {
        match word {
            b"rebase" => Some(Kind::Rebase),
            b"bind" => Some(Kind::Plain),
            b"weak" => Some(Kind::Weak),
            b"lazy" => Some(Kind::Lazy),
            _ => None,
        }
    }
}

pub(crate) fn list(
    call: &Call<'_, impl Host>,
    kind: Kind,
    max: u64,
    room: &mut [u8],
    lines: &mut Lines,
) -> Result<(), Stop> {
    let [_, size, file] = call.all::<3>()?;
    let size = call.pointer_size(size)?;
    let n = load(call, file, Wanted::Stream, room)?;
    let s = &room[..n];
    let fault = first_fault(kind, s, size);
    match kind {
        Kind::Rebase => list_from(RebaseWalk::start(size), s, fault, max, lines)?,
        Kind::Plain => list_from(BindWalk::plain(size), s, fault, max, lines)?,
        Kind::Weak => list_from(BindWalk::weak(size), s, fault, max, lines)?,
        Kind::Lazy => list_from(BindWalk::lazy(size), s, fault, max, lines)?,
    }
    Ok(())
}

fn list_from<R: Registers>(
    start: Result<Walk<R>, Refusal>,
    s: &[u8],
    fault: Option<Fault>,
    max: u64,
    lines: &mut Lines,
) -> io::Result<()>
where
    R::Item: Place,
{
    let source = start.map(|walk| Stream { walk, s, fault });
    closing::list(source, max, lines)
}

// What a stream lists.
trait Place: Copy {
    fn print(self, s: &[u8], lines: &mut Lines) -> io::Result<()>;
}

// A walk over a stream, and the stream's first fault.
#[derive(Clone, Copy)]
struct Stream<'s, R> {
    walk: Walk<R>,
    s: &'s [u8],
    fault: Option<Fault>,
}

impl<R: Registers> Source for Stream<'_, R>
where
    R::Item: Place,
{
    type Item = R::Item;

    #[inline(always)]
    fn next(&mut self) -> Result<R::Item, Ending> {
        match self.walk.step(self.s) {
            Step::Item(next, x) => {
                self.walk = next;
                Ok(x)
            }
            Step::End(stood) => Err(ended(stood.cursor.at, self.s)),
            Step::Refused(stood, why) => {
                let place = place(self.fault, why, stood.cursor.at);
                Err(Ending::Refused { why, place })
            }
        }
    }

    fn print(&mut self, x: R::Item, _: u64, lines: &mut Lines) -> io::Result<()> {
        x.print(self.s, lines)
    }
}

// A Done ends a stream that is not lazy, wherever it stands.
fn ended(at: usize, s: &[u8]) -> Ending {
    if at < s.len() {
        let of = s.len();
        Ending::Done { read: at, of }
    } else {
        Ending::End
    }
}

impl Place for Rebase {
    fn print(self, _: &[u8], lines: &mut Lines) -> io::Result<()> {
        place_at(
            lines,
            "rebase  segment ",
            self.segment,
            self.offset,
            self.kind,
        )?;
        lines.write_all(b"\n")
    }
}

impl Place for Bind {
    fn print(self, s: &[u8], lines: &mut Lines) -> io::Result<()> {
        place_at(
            lines,
            "bind  segment ",
            self.segment,
            self.offset,
            self.kind,
        )?;
        lines.signed("  library ", 10, i64::from(self.library))?;
        lines.hex("  flags 0x", 1, u64::from(self.flags))?;
        lines.symbol(self.addend, self.name(s))
    }
}

fn place_at(lines: &mut Lines, what: &str, segment: u8, offset: u64, kind: u8) -> io::Result<()> {
    lines.decimal(what, 2, u64::from(segment))?;
    lines.hex("  offset 0x", 16, offset)?;
    lines.decimal("  type ", 2, u64::from(kind))
}
