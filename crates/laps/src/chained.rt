// Chained fixups: the places.
ghost use Rattle.std.specs.Prelude.{◌≡◌};
ghost use Rattle.laps.specs.Laps.{segment_sum, step_sum, page_sum};

use crate::lap::lap;
use chains::{Segment, SegmentWalk};
use pages::{PageWalk, Patch};
use runs::Step;

// Of the first segment that has fixups, whose bytes are `contents`, by so many calls at most.
#[unsafe(no_mangle)]
pub extern "C" fn laps_pages(fixups: &[u8], contents: &[u8], base: u64, limit: u64) -> u64
    ensures { result ≡ page_sum fixups.now contents.now base limit }
{
    let Ok(v) = SegmentWalk::start(fixups) else {
        return 0;
    };
    first_lap(v, fixups, contents, base, limit)
}

fn first_lap(v: SegmentWalk, s: &[u8], d: &[u8], base: u64, limit: u64) -> u64
    ensures { result ≡ step_sum s.now d.now base limit v }
{
    let Step::Item(_, segment) = v.step(s) else {
        return 0;
    };
    segment_lap(segment, s, d, base, limit)
}

fn segment_lap(segment: Segment, s: &[u8], d: &[u8], base: u64, limit: u64) -> u64
    ensures { result ≡ segment_sum s.now d.now base limit segment }
{
    let Ok(w) = PageWalk::start(s, segment, base) else {
        return 0;
    };
    lap(w, limit, |w: PageWalk| w.step(s, d), |x: Patch| x.place)
}
