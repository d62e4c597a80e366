// Walks at the boundary to C: their states and their items are each a record of so many words.

ghost use Rattle.std.specs.Prelude.{ℕ, true, ◌≡◌, ◌*◌, List, length, replicate};
ghost use Rattle.packing.specs.Boundary.{States, Items, held, started, step_told, stepped, Says};
ghost use Rattle.packing.specs.Words.{bytes_of};
ghost use Rattle.runs.specs.Runs.{Answer};
ghost use Rattle.runs.specs.Told.{start_told, told};

use crate::{has_words, refused, report, write};
use refusal::Refusal;
use runs::Step;

// How a walk crosses: a state as N words, an item as M. A walk and its items are other crates' types, so
// each walk has a type of its own that says this. (Each tests its own record: how many fields there are, and what they
// may hold, is each layout's own.)
pub trait Layout<const N: usize, const M: usize> {
    type Walk: Copy;

    type Item: Copy;

    ghost states: { States Self.Walk };

    ghost items: { Items Self.Item };

    fn state(w: Self::Walk) -> [u64; N]
        ensures { bytes_of result ≡ states.bytes w };

    fn item(x: Self::Item) -> [u64; M]
        ensures { bytes_of result ≡ items.bytes x };

    // The state that bytes hold.
    fn held(s: &[u8]) -> Option<Self::Walk>
        ensures { result ≡ held states s.now };

    ghost state_long: { states.long ≡ 8 * N };

    ghost held_long: { (s : List ℕ) → states.holds s ≡ true → length s ≡ 8 * N };

    ghost item_long: { items.long ≡ 8 * M };

    ghost blank: { items.blank ≡ bytes_of (replicate M 0) };

    // The state of a walk that begins is written; of one that is refused, nothing.
    final fn begin(start: Result<Self::Walk, Refusal>, state: &mut [u8]) -> u64
        ensures { (result, state.new) ≡ started states state.old (start_told start) }
    {
        if !has_words(state, N) {
            return refused(Refusal::StateOutOfRange);
        }
        match start {
            Ok(w) => {
                write(&Self::state(w), state);
                0
            }
            Err(e) => refused(e),
        }
    }

    // One call of the walk on the state that bytes hold. The next state is written over it, and the item.
    final fn step<F: FnOnce(Self::Walk) -> Step<Self::Walk, Self::Item>>(
        call: F,
        state: &mut [u8],
        item: &mut [u8],
    ) -> u64
        requires { F.IsAlwaysCallable call }
        ensures { (answer : Self.Walk → Answer Self.Walk Self.Item) → Says (F.post call) answer →
            (result, state.new, item.new) ≡ stepped states items state.old item.old answer }
    {
        if !has_words(item, M) {
            return refused(Refusal::StateOutOfRange);
        }
        let Some(w) = Self::held(state) else {
            return refused(Refusal::StateOutOfRange);
        };
        tell::<Self, N, M>(call(w), state, item)
    }
}

fn tell<L: Layout<N, M>, const N: usize, const M: usize>(
    answer: Step<L::Walk, L::Item>,
    state: &mut [u8],
    item: &mut [u8],
) -> u64
    requires state_len { length state.old ≡ 8 * N }
    requires item_len { length item.old ≡ 8 * M }
    ensures { (result, state.new, item.new) ≡ step_told L.states L.items (told answer) }
{
    match answer {
        Step::Item(w, x) => report(0, &L::state(w), &L::item(x), state, item),
        Step::End(w) => report(256, &L::state(w), &[0; M], state, item),
        Step::Refused(w, e) => report(refused(e), &L::state(w), &[0; M], state, item),
    }
}
