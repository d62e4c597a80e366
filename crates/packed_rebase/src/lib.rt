// The rebase walk at the boundary to C: states and items in bytes.

#![tactic(auto)]

ghost use Rattle.std.specs.Prelude.{◌≡◌, refl};
ghost use Rattle.listing.specs.Call.{begin, call};
ghost use Rattle.packing.proofs.Fields.{record_long};
ghost use Rattle.packing.specs.Boundary.{started, stepped};
ghost use Rattle.rebase.specs.Rebases.{unset, rebases};
ghost use Rattle.packed_rebase.specs.Packed.{largest, states, items};

use cursor::Cursor;
use packing::walks::Layout;
use packing::{bit, is_record, pointer_size, word};
use rebase::{Rebase, RebaseStarts, RebaseWalk, Registers};

// The largest value of each field of a state: a table, by which `is_record` tests the words. What it passes fits
// the fields, so the casts below lose nothing.
const FIELDS: [u64; 10] = [
    u64::MAX,
    255,
    u64::MAX,
    u64::MAX,
    u64::MAX,
    1,
    1,
    1,
    255,
    255,
];

// A walk over a rebase stream of a pointer size begins.
pub fn start(size: u64, state: &mut [u8]) -> u64
    ensures { (result, state.new) ≡ started states state.old (begin size unset) }
{
    Packed::begin(pointer_size(size).and_then(RebaseWalk::start), state)
}

// One call of the walk.
pub fn step(s: &[u8], state: &mut [u8], item: &mut [u8]) -> u64
    ensures { (result, state.new, item.new) ≡ stepped states items state.old item.old (call rebases s.now) }
{
    Packed::step(|w| w.step(s), state, item)
}

struct Packed;

impl Layout<10, 3> for Packed {
    type Walk = RebaseWalk;

    type Item = Rebase;

    ghost states = { states };

    ghost items = { items };

    fn state(w: RebaseWalk) -> [u64; 10] {
        let c = w.cursor;
        let g = w.registers;
        [
            c.at as u64,
            u64::from(c.size),
            c.remaining,
            c.advance,
            c.offset,
            bit(c.ended),
            bit(g.segmented),
            bit(g.typed),
            u64::from(g.segment),
            u64::from(g.kind),
        ]
    }

    fn item(x: Rebase) -> [u64; 3] {
        [u64::from(x.segment), x.offset, u64::from(x.kind)]
    }

    // (The first six words are those of a cursor, in both streams' records: `packing` knows no cursor.)
    fn held(s: &[u8]) -> Option<RebaseWalk> {
        if !is_record(s, &FIELDS) {
            return None;
        }
        Some(RebaseWalk {
            cursor: Cursor {
                at: word(s, 0) as usize,
                size: word(s, 1) as u8,
                remaining: word(s, 2),
                advance: word(s, 3),
                offset: word(s, 4),
                ended: word(s, 5) == 1,
            },
            registers: Registers {
                segmented: word(s, 6) == 1,
                typed: word(s, 7) == 1,
                segment: word(s, 8) as u8,
                kind: word(s, 9) as u8,
            },
        })
    }

    ghost state_long = { refl };

    ghost held_long = { λ s h. record_long largest s h refl };

    ghost item_long = { refl };

    ghost blank = { refl };
}
