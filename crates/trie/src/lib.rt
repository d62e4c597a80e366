// The walk over an exports trie: a state goes in, with a lent buffer for names and a limit of nodes;
// an export, the end, a refusal, or that there is more comes out, with the next state and the number
// of nodes visited.

#![tactic(auto)]

ghost use Rattle.std.specs.Prelude.{◌≡◌, ◌-◌, ◌≤◌, ◌<◌};
ghost use Rattle.nodes.specs.ExportsTrie.{node_at};
ghost use Rattle.trie.specs.Call.{at_start, marked, seen, onward, visit_root, call};
ghost use Rattle.trie.specs.Told.{told};
ghost use Rattle.trie.specs.declared.TrieAnswer.TheVariants.{Refused};

mod child;
mod frames;
mod names;

use child::read_child;
use frames::{MOST, out_of_range, still_open};
use names::put;
use nodes::export::Export;
use nodes::node::read_node;
use refusal::Refusal;

// The first `depth` elements of each array are those of the open nodes, the one on top last: where its
// next edge is read, its offset, the length of its name, and how many of its children are still to be
// read. Whether the walk has ended; one that has not and has no node open has not begun.
// (The arrays stand in the state, passed by value: a rule of the project, whose scope names this form.)
#[derive(Clone, Copy, Debug, PartialEq, Eq)]
pub struct TrieWalk {
    pub places: [u64; 256],
    pub offsets: [u64; 256],
    pub lengths: [u64; 256],
    pub depth: usize,
    pub left: [u8; 256],
    pub ended: bool,
}

// The name of an export is the first `length` bytes of the lent buffer. (No `runs::Step`: there is a fourth answer,
// More, and each tells its visits.)
#[derive(Clone, Copy, Debug, PartialEq, Eq)]
pub enum TrieAnswer {
    Export { length: u64, export: Export },
    More,
    End,
    Refused(Refusal),
}

#[derive(Clone, Copy, Debug, PartialEq, Eq)]
pub struct TrieStep {
    pub walk: TrieWalk,
    pub visits: u64,
    pub answer: TrieAnswer,
}

impl TrieWalk {
    pub fn start() -> Self
        ensures { result ≡ at_start 256 }
    {
        Self {
            places: [0; 256],
            offsets: [0; 256],
            lengths: [0; 256],
            depth: 0,
            left: [0; 256],
            ended: false,
        }
    }

    // Visits at most `limit` nodes, until there is something to answer. To be lent the same bytes at each
    // call, and the buffer as the last call left it.
    pub fn step(self, s: &[u8], name: &mut [u8], limit: u64) -> TrieStep
        ensures { (told result, name.new) ≡ seen (call 256 s.now limit self name.old) }
    {
        if out_of_range(&self.places, &self.lengths, self.depth, s.len(), name.len()) {
            return self.answer(TrieAnswer::Refused(Refusal::StateOutOfRange), 0);
        }
        if self.ended {
            return self.answer(TrieAnswer::End, 0);
        }
        if limit == 0 {
            return self.answer(TrieAnswer::More, 0);
        }
        if self.depth == 0 {
            return self.root(s, name, limit);
        }
        self.onward(self, s, name, limit, 0)
    }

    // The first visit of a walk, and what follows it. (Bytes, name and limit come apart, as `step` is lent them: a
    // struct would be made for two calls.)
    fn root(self, s: &[u8], name: &mut [u8], limit: u64) -> TrieStep
        requires { 0 < limit }
        ensures { (told result, name.new) ≡ seen (visit_root 256 s.now self (limit - 1) name.old (node_at s.now 0)) }
    {
        let Some(node) = read_node(s, 0) else {
            return self.refused(Refusal::FaultyNode, 0);
        };
        // It is opened, in place: the arrays are written, not copied.
        let mut w = self;
        w.places[0] = node.place as u64;
        w.offsets[0] = 0;
        w.left[0] = node.children;
        w.lengths[0] = 0;
        w.depth = 1;
        let Some(export) = node.terminal else {
            return self.onward(w, s, name, limit, 1);
        };
        w.answer(TrieAnswer::Export { length: 0, export }, 1)
    }

    // The walk stands at `from`, with `done` nodes visited; `self` is the state as it was given. The
    // arrays change in place, since every call that takes a state by value copies them.
    fn onward(self, from: TrieWalk, s: &[u8], name: &mut [u8], limit: u64, done: u64) -> TrieStep
        requires { (from.depth ≤ 256) × (done ≤ limit) }
        ensures { (told result, name.new) ≡ seen (onward 256 s.now self (limit - done) done from name.old) }
    {
        let mut w = from;
        let mut visits = done;
        loop {
            let depth = still_open(&w.left[..w.depth]);
            w.depth = depth;
            if depth == 0 {
                w.ended = true;
                return w.answer(TrieAnswer::End, visits);
            }
            if limit <= visits {
                return w.answer(TrieAnswer::More, visits);
            }
            let top = depth - 1;
            let kept = w.lengths[top];
            let (edge, node) = match read_child(
                s,
                name.len(),
                &w.offsets[..depth],
                kept,
                w.places[top],
            ) {
                Ok(child) => child,
                Err(e) => return self.refused(e, visits),
            };
            if MOST <= depth {
                return self.refused(Refusal::TooManyOpenNodes, visits);
            }
            put(edge.name.of(s), name, kept as usize);
            let length = kept + edge.name.length as u64;
            w.places[top] = edge.next as u64;
            w.left[top] -= 1;
            w.places[depth] = node.place as u64;
            w.offsets[depth] = edge.offset;
            w.left[depth] = node.children;
            w.lengths[depth] = length;
            w.depth = depth + 1;
            visits += 1;
            if let Some(export) = node.terminal {
                return w.answer(TrieAnswer::Export { length, export }, visits);
            }
        }
    }

    // The state as it was given, marked as ended. (Marked in place: `..self` copies the arrays, and a step took 1,110 ns
    // for 900.)
    fn refused(self, e: Refusal, visits: u64) -> TrieStep
        ensures { result ≡ record { answer = Refused e; walk = marked self; visits = visits } }
    {
        let mut w = self;
        w.ended = true;
        w.answer(TrieAnswer::Refused(e), visits)
    }

    fn answer(self, answer: TrieAnswer, visits: u64) -> TrieStep
        ensures { result ≡ record { answer = answer; walk = self; visits = visits } }
    {
        TrieStep {
            walk: self,
            visits,
            answer,
        }
    }
}
