// The bind walk at the boundary to C: states and items in bytes.

#![tactic(auto)]

ghost use Rattle.std.specs.Prelude.{◌≡◌, refl};
ghost use Rattle.bind.specs.Binds.{plainly, weakly, lazily, binds};
ghost use Rattle.listing.specs.Call.{begin, call};
ghost use Rattle.packing.proofs.Fields.{record_and_long};
ghost use Rattle.packing.specs.Boundary.{started, stepped};
ghost use Rattle.packed_bind.specs.Packed.{largest, states, items};

use bind::{Bind, BindStarts, BindWalk, Registers};
use cursor::Cursor;
use numbers::parts::Part;
use packing::walks::Layout;
use packing::{bit, is_record, pointer_size, signed, unsigned, word};

// The largest value of each field of a state: a table, by which `is_record` tests the words. What it passes fits
// the fields, so the casts below lose nothing.
const FIELDS: [u64; 18] = [
    u64::MAX,
    255,
    u64::MAX,
    u64::MAX,
    u64::MAX,
    1,
    1,
    1,
    1,
    1,
    1,
    255,
    255,
    u64::MAX,
    u64::MAX,
    u64::MAX,
    255,
    u64::MAX,
];

// A walk over a stream of plain binds, of a pointer size, begins.
pub fn plain(size: u64, state: &mut [u8]) -> u64
    ensures { (result, state.new) ≡ started states state.old (begin size plainly) }
{
    Packed::begin(pointer_size(size).and_then(BindWalk::plain), state)
}

// A walk over a stream of weak binds begins.
pub fn weak(size: u64, state: &mut [u8]) -> u64
    ensures { (result, state.new) ≡ started states state.old (begin size weakly) }
{
    Packed::begin(pointer_size(size).and_then(BindWalk::weak), state)
}

// A walk over a stream of lazy binds begins.
pub fn lazy(size: u64, state: &mut [u8]) -> u64
    ensures { (result, state.new) ≡ started states state.old (begin size lazily) }
{
    Packed::begin(pointer_size(size).and_then(BindWalk::lazy), state)
}

// One call of the walk.
pub fn step(s: &[u8], state: &mut [u8], item: &mut [u8]) -> u64
    ensures { (result, state.new, item.new) ≡ stepped states items state.old item.old (call binds s.now) }
{
    Packed::step(|w| w.step(s), state, item)
}

struct Packed;

impl Layout<18, 8> for Packed {
    type Walk = BindWalk;

    type Item = Bind;

    ghost states = { states };

    ghost items = { items };

    fn state(w: BindWalk) -> [u64; 18] {
        let c = w.cursor;
        let g = w.registers;
        [
            c.at as u64,
            u64::from(c.size),
            c.remaining,
            c.advance,
            c.offset,
            bit(c.ended),
            bit(g.lazy),
            bit(g.segmented),
            bit(g.typed),
            bit(g.sourced),
            bit(g.named),
            u64::from(g.segment),
            u64::from(g.kind),
            unsigned(i64::from(g.library)),
            g.name.place as u64,
            g.name.length as u64,
            u64::from(g.flags),
            unsigned(g.addend),
        ]
    }

    fn item(x: Bind) -> [u64; 8] {
        [
            u64::from(x.segment),
            x.offset,
            u64::from(x.kind),
            unsigned(i64::from(x.library)),
            x.name.place as u64,
            x.name.length as u64,
            u64::from(x.flags),
            unsigned(x.addend),
        ]
    }

    // (The first six words are those of a cursor, in both streams' records: `packing` knows no cursor.)
    fn held(s: &[u8]) -> Option<BindWalk> {
        if !is_record(s, &FIELDS) {
            return None;
        }
        let Ok(library) = i32::try_from(signed(word(s, 13))) else {
            return None;
        };
        Some(BindWalk {
            cursor: Cursor {
                at: word(s, 0) as usize,
                size: word(s, 1) as u8,
                remaining: word(s, 2),
                advance: word(s, 3),
                offset: word(s, 4),
                ended: word(s, 5) == 1,
            },
            registers: Registers {
                lazy: word(s, 6) == 1,
                segmented: word(s, 7) == 1,
                typed: word(s, 8) == 1,
                sourced: word(s, 9) == 1,
                named: word(s, 10) == 1,
                segment: word(s, 11) as u8,
                kind: word(s, 12) as u8,
                library,
                name: Part {
                    place: word(s, 14) as usize,
                    length: word(s, 15) as usize,
                },
                flags: word(s, 16) as u8,
                addend: signed(word(s, 17)),
            },
        })
    }

    ghost state_long = { refl };

    ghost held_long = { λ s h. record_and_long largest s _ h refl };

    ghost item_long = { refl };

    ghost blank = { refl };
}
