// Chained fixups: those of one segment.
use crate::chained::passed;
use crate::closing::{Ending, Source, close};
use crate::file::{Wanted, load};
use crate::line::Lines;
use crate::usage::Stop;
use crate::words::{Call, is_input};
use crate::{Host, closing, usage};
use chains::{Segment, SegmentWalk};
use pages::pointer::Fixup;
use pages::{Due, PageWalk, Patch};
use refusal::Refusal;
use runs::Step;
use std::io::{self, Write};

pub(crate) fn list(
    call: &Call<'_, impl Host>,
    max: u64,
    room: &mut [u8],
    lines: &mut Lines,
) -> Result<(), Stop> {
    let [_, file, index, segment, base] = call.all::<5>()?;
    let at = call.number(index, "index")?;
    let base = call.number(base, "base")?;
    if is_input(call.rt, file) && is_input(call.rt, segment) {
        return Err(call.wrong("only one FILE may be -"));
    }
    let n = load(call, file, Wanted::Stream, room)?;
    let (s, rest) = room.split_at_mut(n);
    let m = load(call, segment, Wanted::Segment, rest)?;
    match find(s, at) {
        Ok(Some(g)) => closing::list(Fixups::start(s, &rest[..m], g, base), max, lines)?,
        Ok(None) => {
            return Err(usage::unfit(call.rt, index, "no segment of this index has fixups"));
        }
        Err(Refused { why, place, index }) => close(lines, index, Ending::Refused { why, place })?,
    }
    Ok(())
}

// Why there is no record of a segment, with its place and index.
#[derive(Clone, Copy)]
struct Refused {
    why: Refusal,
    place: u64,
    index: u64,
}

// The record of a segment. One whose record is refused is passed over, as the walk does.
fn find(s: &[u8], index: u64) -> Result<Option<Segment>, Refused> {
    let mut walk = SegmentWalk::start(s).map_err(|why| Refused {
        why,
        place: 0,
        index: 0,
    })?;
    // No walk has more segments than its count.
    for _ in 0..walk.count {
        match walk.step(s) {
            Step::Item(_, g) if g.index == index => return Ok(Some(g)),
            Step::Item(next, _) => walk = next,
            Step::End(_) => return Ok(None),
            Step::Refused(next, why) if passed(next) == index => {
                let place = next.place as u64;
                return Err(Refused { why, place, index });
            }
            Step::Refused(next, _) => walk = next,
        }
    }
    Ok(None)
}

#[derive(Clone, Copy)]
struct Fixups<'s> {
    walk: PageWalk,
    s: &'s [u8],
    d: &'s [u8],
}

impl<'s> Fixups<'s> {
    fn start(s: &'s [u8], d: &'s [u8], g: Segment, base: u64) -> Result<Fixups<'s>, Refusal> {
        let walk = PageWalk::start(s, g, base)?;
        Ok(Fixups { walk, s, d })
    }
}

impl Source for Fixups<'_> {
    type Item = Patch;

    #[inline(always)]
    fn next(&mut self) -> Result<Patch, Ending> {
        match self.walk.step(self.s, self.d) {
            Step::Item(next, x) => {
                self.walk = next;
                Ok(x)
            }
            Step::End(_) => Err(Ending::End),
            Step::Refused(stood, why) => Err(Ending::Refused {
                why,
                place: place(stood),
            }),
        }
    }

    fn print(&mut self, x: Patch, _: u64, lines: &mut Lines) -> io::Result<()> {
        match x.fixup {
            Fixup::Rebase(r) => {
                lines.hex("rebase  offset 0x", 16, x.place)?;
                lines.hex("  target 0x", 16, r.target)?;
            }
            Fixup::Bind(b) => {
                lines.hex("bind    offset 0x", 16, x.place)?;
                lines.decimal("  import ", 18, b.ordinal)?;
                lines.decimal("  addend ", 3, b.addend)?;
            }
        }
        lines.write_all(b"\n")
    }
}

// Where the pointer is that was due, or else the page that was the last to be looked at.
fn place(walk: PageWalk) -> u64 {
    match walk.due {
        Due::PointerThenPage | Due::PointerThenChain => walk.offset,
        Due::NextPage | Due::NextChain => walk.origin,
    }
}
