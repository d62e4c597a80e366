// The next child of an open node.
ghost use Rattle.std.specs.Prelude.{◌≡◌, ◌+◌, ltb, length};
ghost use Rattle.trie.specs.Frames.{top_down};
ghost use Rattle.trie.specs.NextChild.{child_at};

use nodes::child::enter;
use nodes::node::{Edge, Node, read_edge};
use refusal::Refusal;

// The child whose edge is at a place, or what refuses it. `ancestors` has the offsets of the open nodes,
// and the name of the one on top has `kept` bytes.
#[tactic(auto, unfolding(crate::specs::NextChild::child_at, nodes::specs::ExportsTrie::then_read))]
pub(crate) fn read_child(
    s: &[u8],
    room: usize,
    ancestors: &[u64],
    kept: u64,
    place: u64,
) -> Result<(Edge, Node), Refusal>
    ensures { result ≡ child_at s.now room (top_down ancestors.now (length ancestors.now)) kept place }
{
    let edge = read_edge(s, place as usize).ok_or(Refusal::FaultyNode)?;
    if is_long(kept, edge.name.length, room) {
        return Err(Refusal::NameTooLong);
    }
    enter(s, ancestors.contains(&edge.offset), edge)
}

// Whether a name of so many bytes and so many more is longer than the room.
fn is_long(kept: u64, more: usize, room: usize) -> bool
    ensures { result ≡ ltb room (kept + more) }
{
    kept.checked_add(more as u64)
        .is_none_or(|length| (room as u64) < length)
}
