// A loop over any walk.
ghost use Rattle.laps.specs.Laps.{IsLap};

use runs::Step;

// Calls a walk again and again, by so many calls at most, up to the first that yields no item, and sums up a number of
// each item.
pub(crate) fn lap<W: Copy, X: Copy, F: Fn(W) -> Step<W, X>, G: Fn(X) -> u64>(
    start: W,
    limit: u64,
    step: F,
    value: G,
) -> u64
    requires steps { F.IsAlwaysCallable step }
    requires values { G.IsAlwaysCallable value }
    ensures { IsLap (F.post step) (G.post value) limit start result }
{
    let mut w = start;
    let mut sum: u64 = 0;
    for _ in 0..limit {
        let Step::Item(next, x) = step(w) else {
            return sum;
        };
        sum = sum.wrapping_add(value(x));
        w = next;
    }
    sum
}
