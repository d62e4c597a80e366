// The places of one operation, judged together: however many they are, nothing is stepped through.

#![tactic(auto)]

ghost use Rattle.std.specs.Prelude.{◌≡◌};
ghost use Rattle.places.specs.Places.{judged_of};

// The largest segment that places are judged in: 2^62 bytes.
pub const LARGEST_SIZE: u64 = 0x4000_0000_0000_0000;

// All places lie inside, and this is the offset behind them; or this is the index of the first that
// does not; or the segment is larger than any that places are judged in. (Three cases: a `Result` would
// need an enum of the last two, and be no plainer.)
#[derive(Clone, Copy, Debug, PartialEq, Eq)]
pub enum Judged {
    Inside(u64),
    Outside(u64),
    TooLarge,
}

// A place of a width at an offset, and `left` more, each `advance` from the one before it modulo 2^64,
// in a segment of a size. An advance above 2^63 is a step backwards.
pub fn judge(offset: u64, advance: u64, left: u64, width: u64, size: u64) -> Judged
    ensures { result ≡ judged_of offset advance left width size }
{
    if LARGEST_SIZE < size {
        return Judged::TooLarge;
    }
    if size < width {
        return Judged::Outside(0);
    }
    let last = size - width;
    if last < offset {
        return Judged::Outside(0);
    }
    if advance == 0 {
        return Judged::Inside(offset);
    }
    if advance <= 0x8000_0000_0000_0000 {
        let steps_up = (last - offset) / advance;
        if steps_up < left {
            return Judged::Outside(steps_up + 1);
        }
        return Judged::Inside((offset + left * advance).wrapping_add(advance));
    }
    let back = u64::MAX - advance + 1;
    let steps_down = offset / back;
    if steps_down < left {
        return Judged::Outside(steps_down + 1);
    }
    Judged::Inside((offset - left * back).wrapping_add(advance))
}
