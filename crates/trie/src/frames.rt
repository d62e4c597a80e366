// The open nodes: of each array of a walk, the first `depth` elements, which the functions here are lent.
ghost use Rattle.std.specs.Prelude.{◌≡◌, ◌≤◌, length, ltb};
ghost use Rattle.std.specs.List.{list_any};
ghost use Rattle.trie.specs.Frames.{top_down, one_above, out_of_range, still_open};

// How many there may be at once: the length of the arrays.
pub(crate) const MOST: usize = 256;

// Whether they are too many, or one has its read place beyond the bytes or its name beyond the room. (The
// arrays are whole here: `depth` may be more than they have.)
pub(crate) fn out_of_range(
    places: &[u64; 256],
    lengths: &[u64; 256],
    depth: usize,
    bytes: usize,
    room: usize,
) -> bool
    ensures { result ≡ out_of_range 256 places.now lengths.now depth bytes room }
{
    if MOST < depth {
        return true;
    }
    one_above(&places[..depth], bytes as u64) || one_above(&lengths[..depth], room as u64)
}

// Whether one of them has more than so much.
fn one_above(xs: &[u64], bound: u64) -> bool
    ensures { result ≡ list_any (λ y. ltb bound y) xs.now }
{
    xs.iter().any(|x| bound < *x)
}

// How many are left when those on top with no child left are closed.
pub(crate) fn still_open(left: &[u8]) -> usize
    ensures { (result ≡ still_open left.now (length left.now)) × (result ≤ length left.now) }
{
    // (A `match`: the proof names its two arms.)
    match left.iter().rposition(|n| *n != 0) {
        Some(top) => top + 1,
        None => 0,
    }
}
