// The walk over segments at the boundary to C: states and items in bytes.

#![tactic(auto)]

ghost use Rattle.std.specs.Prelude.{◌≡◌, refl};
ghost use Rattle.chains.specs.Call.{begin, call};
ghost use Rattle.packing.proofs.Fields.{record_long};
ghost use Rattle.packing.specs.Boundary.{started, stepped};
ghost use Rattle.packed_segments.specs.Packed.{state_fields, states, items};

use chains::{Segment, SegmentWalk};
use packing::walks::Layout;
use packing::{is_record, word};

// The largest value of each field of a state.
const FIELDS: [u64; 3] = [u64::MAX; 3];

// A walk over the segments of chained fixups begins.
pub fn start(s: &[u8], state: &mut [u8]) -> u64
    ensures { (result, state.new) ≡ started states state.old (begin s.now) }
{
    Packed::begin(SegmentWalk::start(s), state)
}

// One call of the walk.
pub fn step(s: &[u8], state: &mut [u8], item: &mut [u8]) -> u64
    ensures { (result, state.new, item.new) ≡ stepped states items state.old item.old (call s.now) }
{
    Packed::step(|w| w.step(s), state, item)
}

// How the walk crosses.
struct Packed;

impl Layout<3, 8> for Packed {
    type Walk = SegmentWalk;

    type Item = Segment;

    ghost states = { states };

    ghost items = { items };

    fn state(w: SegmentWalk) -> [u64; 3] {
        [w.place as u64, w.count, w.index]
    }

    fn item(x: Segment) -> [u64; 8] {
        [
            x.index,
            u64::from(x.page_size),
            u64::from(x.pointer_format),
            x.segment_offset,
            x.max_valid_pointer,
            u64::from(x.page_count),
            x.place as u64,
            x.count,
        ]
    }

    fn held(s: &[u8]) -> Option<SegmentWalk> {
        if !is_record(s, &FIELDS) {
            return None;
        }
        Some(SegmentWalk {
            place: word(s, 0) as usize,
            count: word(s, 1),
            index: word(s, 2),
        })
    }

    ghost state_long = { refl };

    ghost held_long = { λ s h. record_long state_fields s h refl };

    ghost item_long = { refl };

    ghost blank = { refl };
}
