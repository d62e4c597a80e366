// The walk over imports at the boundary to C: states and items in bytes.

#![tactic(auto)]

ghost use Rattle.std.specs.Prelude.{◌≡◌, refl};
ghost use Rattle.imports.specs.Call.{begin, call};
ghost use Rattle.packing.proofs.Fields.{record_long};
ghost use Rattle.packing.specs.Boundary.{started, stepped};
ghost use Rattle.packed_imports.specs.Packed.{state_fields, states, items};

use imports::{Import, ImportWalk};
use packing::walks::Layout;
use packing::{bit, is_record, unsigned, word};

// The largest value of each field of a state.
const FIELDS: [u64; 5] = [u64::MAX, u64::MAX, u64::MAX, u64::MAX, 1];

// A walk over the imports of chained fixups begins.
pub fn start(s: &[u8], state: &mut [u8]) -> u64
    ensures { (result, state.new) ≡ started states state.old (begin s.now) }
{
    Packed::begin(ImportWalk::start(s), state)
}

// One call of the walk.
pub fn step(s: &[u8], state: &mut [u8], item: &mut [u8]) -> u64
    ensures { (result, state.new, item.new) ≡ stepped states items state.old item.old (call s.now) }
{
    Packed::step(|w| w.step(s), state, item)
}

// How the walk crosses.
struct Packed;

impl Layout<5, 5> for Packed {
    type Walk = ImportWalk;

    type Item = Import;

    ghost states = { states };

    ghost items = { items };

    fn state(w: ImportWalk) -> [u64; 5] {
        [
            w.place as u64,
            w.symbols_offset as u64,
            w.left,
            w.imports_format,
            bit(w.ended),
        ]
    }

    fn item(x: Import) -> [u64; 5] {
        [
            unsigned(i64::from(x.library)),
            bit(x.weak),
            unsigned(x.addend),
            x.name.place as u64,
            x.name.length as u64,
        ]
    }

    fn held(s: &[u8]) -> Option<ImportWalk> {
        if !is_record(s, &FIELDS) {
            return None;
        }
        Some(ImportWalk {
            place: word(s, 0) as usize,
            symbols_offset: word(s, 1) as usize,
            left: word(s, 2),
            imports_format: word(s, 3),
            ended: word(s, 4) == 1,
        })
    }

    ghost state_long = { refl };

    ghost held_long = { λ s h. record_long state_fields s h refl };

    ghost item_long = { refl };

    ghost blank = { refl };
}
