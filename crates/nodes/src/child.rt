// A child whose edge is read.
ghost use Rattle.std.specs.Prelude.{◌≡◌};
ghost use Rattle.nodes.specs.Child.{entered_at};

use crate::node::{Edge, Node, read_node};
use refusal::Refusal;

// Its edge and its node, or why it is not entered; `is_open` says whether its offset is that of an
// open node.
#[tactic(auto, unfolding(crate::specs::Child::entered_at, crate::specs::ExportsTrie::then_read))]
pub fn enter(s: &[u8], is_open: bool, edge: Edge) -> Result<(Edge, Node), Refusal>
    ensures { result ≡ entered_at s.now is_open edge }
{
    if is_open {
        return Err(Refusal::ChildIsOpen);
    }
    let node = read_node(s, edge.offset).ok_or(Refusal::FaultyNode)?;
    Ok((edge, node))
}
