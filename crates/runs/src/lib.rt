// What walks answer, and what calls of a walk, again and again, say: specs/Runs.antt.

#![tactic(auto)]

use refusal::Refusal;

// What a call of a walk `W` answers: an item, the end or a refusal, and the next state. The state stands
// first, so that it lies at one place in all three. (A state beside a `Result` of an `Option` is no plainer, and
// slower: the state would not lie first.)
#[derive(Clone, Copy, Debug, PartialEq, Eq)]
pub enum Step<W, T> {
    Item(W, T),
    End(W),
    Refused(W, Refusal),
}
