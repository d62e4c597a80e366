// The exports trie: the lengths of the names.
ghost use Rattle.std.specs.Prelude.{◌≡◌};
ghost use Rattle.trie.specs.Call.{at_start};
ghost use Rattle.laps.specs.Laps.{trie_lap};

use trie::{TrieAnswer, TrieWalk};

// By so many calls at most, each with the largest limit of nodes. The names are put into the buffer.
#[unsafe(no_mangle)]
pub extern "C" fn laps_trie(trie: &[u8], name: &mut [u8], limit: u64) -> u64
    ensures { (result, name.new) ≡ trie_lap trie.now limit 0 (at_start 256) name.old }
{
    let mut w = TrieWalk::start();
    let mut sum: u64 = 0;
    for _ in 0..limit {
        let told = w.step(trie, name, u64::MAX);
        let TrieAnswer::Export { length, .. } = told.answer else {
            return sum;
        };
        sum = sum.wrapping_add(length);
        w = told.walk;
    }
    sum
}
