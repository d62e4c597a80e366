// The trie walk at the boundary to C: states and items in bytes.

#![tactic(auto)]

ghost use Rattle.std.specs.Prelude.{◌≡◌, ◌+◌, ◌*◌, ◌≤◌, length};
ghost use Rattle.std.proofs.lemmas.List.Edits.{sets};
ghost use Rattle.nodes.specs.Exported.{export_told};
ghost use Rattle.packing.specs.Boundary.{started};
ghost use Rattle.packing.specs.Words.{words_from, bytes_of};
ghost use Rattle.runs.specs.Runs.{begun};
ghost use Rattle.trie.specs.Call.{export, at_start};
ghost use Rattle.trie.specs.Told as trie;
ghost use Rattle.packed_trie.specs.Packed.{most, state_long, state_bytes, holds, state_at, states, item_words, answer_told, stepped};

use nodes::export::{Export, ExportData};
use packing::{bit, refused, word, write};
use refusal::Refusal;
use trie::{TrieAnswer, TrieStep, TrieWalk};

// The words of a state: depth, ended, and for each node its place, its offset and the length of its
// name; of these three the index of the first word. Behind the words there is a byte for each node, its
// children left. (The numbers are those of the C interface.)
const NODES: usize = 256;

const PLACES: usize = 2;

const OFFSETS: usize = PLACES + NODES;

const LENGTHS: usize = OFFSETS + NODES;

const LEFT: usize = 8 * (LENGTHS + NODES);

const STATE: usize = LEFT + NODES;

const ITEM: usize = 9;

const ITEM_BYTES: usize = 8 * ITEM;

// A walk over a trie begins.
#[tactic(auto, unfolding(packing::specs::Boundary::started))]
pub fn start(state: &mut [u8]) -> u64
    ensures { (result, state.new) ≡ started states state.old (begun (at_start most)) }
{
    if state.len() != STATE {
        return refused(Refusal::StateOutOfRange);
    }
    keep(&TrieWalk::start(), state);
    0
}

// One call of the walk.
#[tactic(auto, unfolding(crate::specs::Packed::stepped))]
pub fn step(s: &[u8], state: &mut [u8], name: &mut [u8], limit: u64, item: &mut [u8]) -> u64
    ensures { (result, state.new, name.new, item.new) ≡ stepped s.now limit state.old name.old item.old }
{
    if item.len() != ITEM_BYTES || !is_state(state) {
        return refused(Refusal::StateOutOfRange);
    }
    let TrieStep {
        walk,
        visits,
        answer,
    } = held(state).step(s, name, limit);
    keep(&walk, state);
    write(&words(visits, answer), item);
    number(answer)
}

// Whether the bytes are those of a state.
#[tactic(auto, unfolding(crate::specs::Packed::holds))]
fn is_state(s: &[u8]) -> bool
    ensures { result ≡ holds s.now }
{
    s.len() == STATE && word(s, 1) <= 1
}

// The state that the bytes are. Its arrays are filled where they lie. (It comes by itself, and not in
// an Option: that would copy it once more, and a step would take half as long again.)
fn held(s: &[u8]) -> TrieWalk
    requires { length s.now ≡ state_long }
    ensures { result ≡ state_at s.now }
{
    let mut w = TrieWalk::start();
    fill(s, PLACES, &mut w.places);
    fill(s, OFFSETS, &mut w.offsets);
    fill(s, LENGTHS, &mut w.lengths);
    w.left.copy_from_slice(&s[LEFT..STATE]);
    w.depth = word(s, 0) as usize;
    w.ended = word(s, 1) == 1;
    w
}

// The array is filled with the words from an index on.
fn fill(s: &[u8], first: usize, words: &mut [u64; NODES])
    requires { 8 * (first + most) ≤ length s.now }
    ensures { words.new ≡ words_from s.now first most }
{
    for (i, w) in words.iter_mut().enumerate() {
        *w = word(s, first + i);
    }
}

// The state is written: its words, and behind them the bytes.
fn keep(w: &TrieWalk, state: &mut [u8])
    requires { length state.old ≡ state_long }
    ensures { state.new ≡ state_bytes w.now }
{
    put(&[w.depth as u64, bit(w.ended)], state, 0);
    put(&w.places, state, PLACES);
    put(&w.offsets, state, OFFSETS);
    put(&w.lengths, state, LENGTHS);
    state[LEFT..STATE].copy_from_slice(&w.left);
}

// The words are written from an index on.
fn put(words: &[u64], state: &mut [u8], first: usize)
    requires { 8 * (first + length words.now) ≤ length state.old }
    ensures { state.new ≡ sets state.old (8 * first) (bytes_of words.now) }
{
    let at = 8 * first;
    let end = at + 8 * words.len();
    write(words, &mut state[at..end]);
}

// The item of an answer: its words.
fn words(visits: u64, answer: TrieAnswer) -> [u64; ITEM]
    ensures { result ≡ item_words visits (trie.answer_told answer) }
{
    let TrieAnswer::Export { length, export } = answer else {
        return [visits, 0, 0, 0, 0, 0, 0, 0, 0];
    };
    exported(visits, length, export)
}

fn exported(visits: u64, length: u64, x: Export) -> [u64; ITEM]
    ensures { result ≡ item_words visits (export length (export_told x)) }
{
    let flags = u64::from(x.flags);
    match x.target {
        ExportData::Regular { address } => [visits, length, flags, 0, address, 0, 0, 0, 0],
        ExportData::Reexport(import) => [
            visits,
            length,
            flags,
            1,
            0,
            0,
            import.ordinal,
            import.name.place as u64,
            import.name.length as u64,
        ],
        ExportData::StubAndResolver { stub, resolver } => [
            visits, length, flags, 2, stub, resolver, 0, 0, 0,
        ],
    }
}

// The numbers of the C interface: an item, more, the end, or else the refusal's.
fn number(answer: TrieAnswer) -> u64
    ensures { result ≡ answer_told (trie.answer_told answer) }
{
    match answer {
        TrieAnswer::Export { .. } => 0,
        TrieAnswer::More => 257,
        TrieAnswer::End => 256,
        TrieAnswer::Refused(e) => refused(e),
    }
}
