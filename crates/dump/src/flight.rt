// Preflights: a stream is judged, and nothing of it is listed.
use crate::closing::{Ending, close};
use crate::file::{Wanted, load};
use crate::line::Lines;
use crate::streams::Kind;
use crate::usage::Stop;
use crate::words::{Call, LONGEST, argument};
use crate::{Host, usage};
use preflight::Fault;
use refusal::Refusal;

// One more than there may be, so that too many are refused by their number.
const MOST: usize = 17;

// Sizes that no place of an image comes near.
const WIDE: [u64; 16] = [0x4000_0000_0000_0000; 16];

pub(crate) fn judge(
    call: &Call<'_, impl Host>,
    room: &mut [u8],
    lines: &mut Lines,
) -> Result<(), Stop> {
    let [_, kind, size, file, sizes @ ..] = call.words.kept() else {
        return Err(call.wrong("too few words"));
    };
    let kind = kind_of(call.rt, *kind)?;
    let size = call.pointer_size(*size)?;
    let mut numbers = [0; MOST];
    let sizes = gather(call, sizes, &mut numbers)?;
    let n = load(call, *file, Wanted::Stream, room)?;
    match verdict(kind, &room[..n], size, sizes) {
        Ok(operations) => close(lines, operations, Ending::Pass)?,
        Err(fault) => {
            let why = fault.refusal;
            let place = fault.position;
            close(lines, fault.index, Ending::Refused { why, place })?;
        }
    }
    Ok(())
}

fn kind_of(rt: &impl Host, i: usize) -> Result<Kind, Stop> {
    let mut room = [0; LONGEST];
    let word = argument(rt, i, &mut room).unwrap_or(&[]);
    match Kind::of(word) {
        Some(kind) => Ok(kind),
        None => Err(usage::no_kind(rt, i)),
    }
}

// The sizes that the words are.
fn gather<'n>(
    call: &Call<'_, impl Host>,
    words: &[usize],
    numbers: &'n mut [u64; MOST],
) -> Result<&'n [u64], Stop> {
    let numbers = &mut numbers[..words.len().min(MOST)];
    for (n, i) in numbers.iter_mut().zip(words) {
        *n = call.number(*i, "size")?;
    }
    Ok(numbers)
}

// The first fault where every segment has 2^62 bytes.
pub(crate) fn first_fault(kind: Kind, s: &[u8], size: u8) -> Option<Fault> {
    verdict(kind, s, size, &WIDE).err()
}

// Where a refusal of the walk is. The first fault is that refusal, or else a place that is outside; then all that is
// known is where the walk stood.
pub(crate) fn place(first: Option<Fault>, why: Refusal, stood: usize) -> u64 {
    match first {
        Some(fault) if fault.refusal == why => fault.position,
        _ => stood as u64,
    }
}

fn verdict(kind: Kind, s: &[u8], size: u8, sizes: &[u64]) -> Result<u64, Fault> {
    match kind {
        Kind::Rebase => preflight::rebases(s, size, sizes),
        Kind::Plain => preflight::plain_binds(s, size, sizes),
        Kind::Weak => preflight::weak_binds(s, size, sizes),
        Kind::Lazy => preflight::lazy_binds(s, size, sizes),
    }
}
