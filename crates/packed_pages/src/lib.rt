// The walk over pages at the boundary to C: states and items in bytes.

#![tactic(auto)]

ghost use Rattle.std.specs.Prelude.{◌≡◌, ◌≤◌, refl};
ghost use Rattle.packed_segments.specs.Packed.{segment_at};
ghost use Rattle.packing.proofs.Fields.{record_long};
ghost use Rattle.packing.specs.Boundary.{started, stepped};
ghost use Rattle.packing.specs.Fields.{u16};
ghost use Rattle.packing.specs.Words.{word_at};
ghost use Rattle.pages.specs.Call.{call};
ghost use Rattle.pages.specs.Due.{linked, more, due_of};
ghost use Rattle.packed_pages.specs.Packed.{state_fields, states, begin_at, items};

use chains::Segment;
use packing::walks::Layout;
use packing::{bit, is_record, word};
use pages::pointer::Fixup;
use pages::{Due, PageWalk, Patch};
use refusal::Refusal;

// The largest value of each field of a segment's record.
const SEGMENT: [u64; 8] = [
    u64::MAX,
    65535,
    65535,
    u64::MAX,
    u64::MAX,
    65535,
    u64::MAX,
    u64::MAX,
];

// The largest value of each field of a state.
const FIELDS: [u64; 16] = [
    u64::MAX,
    65535,
    65535,
    u64::MAX,
    u64::MAX,
    65535,
    u64::MAX,
    u64::MAX,
    u64::MAX,
    1,
    1,
    u64::MAX,
    u64::MAX,
    u64::MAX,
    u64::MAX,
    1,
];

// A walk over the fixups of a segment, by its record, begins.
#[tactic(auto, unfolding(crate::specs::Packed::begin_at))]
pub fn start(s: &[u8], segment: &[u8], base: u64, state: &mut [u8]) -> u64
    ensures { (result, state.new) ≡ started states state.old (begin_at s.now segment.now base) }
{
    if !is_record(segment, &SEGMENT) {
        return Packed::begin(Err(Refusal::StateOutOfRange), state);
    }
    Packed::begin(PageWalk::start(s, held_segment(segment), base), state)
}

// One call of the walk.
pub fn step(s: &[u8], contents: &[u8], state: &mut [u8], item: &mut [u8]) -> u64
    ensures { (result, state.new, item.new) ≡ stepped states items state.old item.old (call s.now contents.now) }
{
    Packed::step(|w| w.step(s, contents), state, item)
}

// How the walk crosses.
struct Packed;

impl Layout<16, 5> for Packed {
    type Walk = PageWalk;

    type Item = Patch;

    ghost states = { states };

    ghost items = { items };

    fn state(w: PageWalk) -> [u64; 16] {
        let g = w.segment;
        let (linked, more) = marks(w.due);
        [
            g.index,
            u64::from(g.page_size),
            u64::from(g.pointer_format),
            g.segment_offset,
            g.max_valid_pointer,
            u64::from(g.page_count),
            g.place as u64,
            g.count,
            w.base,
            bit(linked),
            bit(more),
            w.page,
            w.chain,
            w.origin,
            w.offset,
            bit(w.ended),
        ]
    }

    fn item(x: Patch) -> [u64; 5] {
        match x.fixup {
            Fixup::Rebase(r) => [x.place, 0, r.target, 0, 0],
            Fixup::Bind(b) => [x.place, 1, 0, b.ordinal, b.addend],
        }
    }

    fn held(s: &[u8]) -> Option<PageWalk> {
        if !is_record(s, &FIELDS) {
            return None;
        }
        Some(PageWalk {
            segment: held_segment(s),
            base: word(s, 8),
            due: due_of(word(s, 9) == 1, word(s, 10) == 1),
            page: word(s, 11),
            chain: word(s, 12),
            origin: word(s, 13),
            offset: word(s, 14),
            ended: word(s, 15) == 1,
        })
    }

    ghost state_long = { refl };

    ghost held_long = { λ s h. record_long state_fields s h refl };

    ghost item_long = { refl };

    ghost blank = { refl };
}

// What is due as the two flags of a state: whether a pointer is, and whether a chain is, behind it or at once.
fn marks(due: Due) -> (bool, bool)
    ensures { result ≡ (linked due, more due) }
{
    match due {
        Due::NextPage => (false, false),
        Due::NextChain => (false, true),
        Due::PointerThenPage => (true, false),
        Due::PointerThenChain => (true, true),
    }
}

// What is due by the two flags.
fn due_of(linked: bool, more: bool) -> Due
    ensures { result ≡ due_of linked more }
{
    match (linked, more) {
        (false, false) => Due::NextPage,
        (false, true) => Due::NextChain,
        (true, false) => Due::PointerThenPage,
        (true, true) => Due::PointerThenChain,
    }
}

// The segment whose record the bytes begin with.
fn held_segment(s: &[u8]) -> Segment
    requires { (word_at s.now 1 ≤ u16) × (word_at s.now 2 ≤ u16) × (word_at s.now 5 ≤ u16) }
    ensures { result ≡ segment_at s.now }
{
    Segment {
        index: word(s, 0),
        page_size: word(s, 1) as u16,
        pointer_format: word(s, 2) as u16,
        segment_offset: word(s, 3),
        max_valid_pointer: word(s, 4),
        page_count: word(s, 5) as u16,
        place: word(s, 6) as usize,
        count: word(s, 7),
    }
}
