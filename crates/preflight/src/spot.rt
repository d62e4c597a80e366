// What a motion comes to in a preflight, whatever the kind of stream.
ghost use Rattle.std.specs.Prelude.{◌≡◌};
ghost use Rattle.cursor.specs.Motion.{turn_of};
ghost use Rattle.preflight.specs.Flown.{flown_places, flown_due, flown_of};
ghost use Rattle.preflight.specs.Leg.{places_of};
ghost use Rattle.preflight.specs.Verdict.{width_of};

use cursor::{Motion, Turn};
use places::Judged;
use refusal::Refusal;

// REBASE_TYPE_TEXT_ABSOLUTE32 and BIND_TYPE_TEXT_ABSOLUTE32.
const TEXT_ABSOLUTE32: u8 = 2;

// REBASE_TYPE_TEXT_PCREL32 and BIND_TYPE_TEXT_PCREL32.
const TEXT_PCREL32: u8 = 3;

// What is known of places if some are due: the pointer size, what they lack, their segment and their
// type. (Segment and type stand beside what is lacking, as the registers keep them with a flag off.)
#[derive(Clone, Copy)]
pub(crate) struct Spot {
    pub(crate) size: u8,
    pub(crate) lack: Option<Refusal>,
    pub(crate) segment: u8,
    pub(crate) kind: u8,
}

// The stream goes on at an offset; it ends, and passes; or there is a fault, at an index of the repeat.
// (Three cases: a `Result` of an `Option` would be no plainer.)
#[derive(Clone, Copy)]
pub(crate) enum Flown {
    On(u64),
    Pass,
    Fault(Refusal, u64),
}

impl Spot {
    // What a motion comes to, at an offset, for the sizes of the segments.
    #[tactic(auto, unfolding(crate::specs::Flown::flown_of))]
    pub(crate) fn fly(self, motion: Motion, offset: u64, sizes: &[u64]) -> Flown
        ensures { result ≡ flown_of self offset sizes.now (turn_of self.size offset motion) }
    {
        match motion.turned(self.size, offset) {
            Turn::On(to) => Flown::On(to),
            Turn::Anew => Flown::On(0),
            Turn::Due(left, advance) => self.due(offset, advance, left, sizes),
            Turn::End => Flown::Pass,
            Turn::Refused(e) => Flown::Fault(e, 0),
        }
    }

    // A place that is due at an offset, and `left` more.
    fn due(self, offset: u64, advance: u64, left: u64, sizes: &[u64]) -> Flown
        ensures { result ≡ flown_due self offset advance left sizes.now self.lack }
    {
        match self.lack {
            None => self.judged(offset, advance, left, sizes),
            Some(e) => Flown::Fault(e, 0),
        }
    }

    // Places that lack nothing, judged together.
    #[tactic(auto, unfolding(crate::specs::Flown::flown_places))]
    fn judged(self, offset: u64, advance: u64, left: u64, sizes: &[u64]) -> Flown
        ensures { result ≡ flown_places self offset advance left sizes.now }
    {
        let Some(&size) = sizes.get(usize::from(self.segment)) else {
            return Flown::Fault(Refusal::PlaceOutside, 0);
        };
        match places::judge(offset, advance, left, self.width(), size) {
            Judged::Inside(behind) => Flown::On(behind),
            Judged::Outside(index) => Flown::Fault(Refusal::PlaceOutside, index),
            Judged::TooLarge => Flown::Fault(Refusal::UnfitSizes, 0),
        }
    }

    // The width of a place: a text relocation of 32 bits has four bytes.
    fn width(self) -> u64
        ensures { result ≡ width_of self.size self.kind }
    {
        match self.kind {
            TEXT_ABSOLUTE32 | TEXT_PCREL32 => 4,
            _ => u64::from(self.size),
        }
    }
}

// How many places a motion yields.
pub(crate) fn places(motion: Motion) -> u64
    ensures { result ≡ places_of motion }
{
    match motion {
        Motion::Repeats(count, _) => count,
        _ => 0,
    }
}
