// The exports trie.
ghost use Rattle.std.specs.Prelude.{◌≡◌};
ghost use Rattle.brinetrellis.specs.Entries.{trie_start, trie_step};

#[unsafe(no_mangle)]
pub extern "C" fn brinetrellis_trie_start(state: &mut [u8]) -> u64
    ensures { (result, state.new) ≡ trie_start state.old }
{
    packed_trie::start(state)
}

#[unsafe(no_mangle)]
pub extern "C" fn brinetrellis_trie_step(
    trie: &[u8],
    state: &mut [u8],
    name: &mut [u8],
    limit: u64,
    item: &mut [u8],
) -> u64
    ensures { (result, state.new, name.new, item.new) ≡ trie_step trie.now state.old name.old limit item.old }
{
    packed_trie::step(trie, state, name, limit, item)
}
