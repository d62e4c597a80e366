// The lent buffer, in which the name of a node stands.
ghost use Rattle.std.specs.Prelude.{◌≡◌};
ghost use Rattle.trie.specs.Call.{put};

// Bytes are put into the buffer at a place; none where they do not fit. (An edge's do:
// `read_child` has refused a name that is too long.)
#[tactic(auto, unfolding(crate::specs::Call::put))]
pub(crate) fn put(bytes: &[u8], name: &mut [u8], at: usize)
    ensures { name.new ≡ put bytes.now name.old at }
{
    let Some(end) = at.checked_add(bytes.len()) else {
        return;
    };
    if name.len() < end {
        return;
    }
    // (Byte by byte: the archive asks for no `memmove` of a C library, which `copy_from_slice` would.)
    for (i, b) in bytes.iter().enumerate() {
        name[at + i] = *b;
    }
}
