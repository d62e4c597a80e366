// The nodes of the exports trie, and the edges to their children.
ghost use Rattle.std.specs.Prelude.{◌≡◌};
ghost use Rattle.nodes.specs.ExportsTrie.{counted_at, node_at, edge_at};

use crate::export::{Export, read_export};
use numbers::leb128::read_uleb;
use numbers::parts::Part;
use numbers::strings::read_string;

// What a node exports under its name, if anything; how many children it has; and the place of the
// first edge.
#[derive(Clone, Copy, Debug, PartialEq, Eq)]
pub struct Node {
    pub terminal: Option<Export>,
    pub children: u8,
    pub place: usize,
}

// The part that is an edge's string, the offset of the child's node, and the place behind.
#[derive(Clone, Copy, Debug, PartialEq, Eq)]
pub struct Edge {
    pub name: Part,
    pub offset: u64,
    pub next: usize,
}

// The node at an offset.
#[tactic(auto, unfolding(crate::specs::ExportsTrie::node_at, crate::specs::ExportsTrie::then_read, numbers::specs::Then::then))]
pub fn read_node(s: &[u8], offset: u64) -> Option<Node>
    ensures { result ≡ node_at s.now offset }
{
    let (size, at) = read_uleb(s, offset as usize)?;
    if size == 0 {
        return counted(s, None, at);
    }
    let end = at.checked_add(size as usize)?;
    let export = read_export(s.get(..end)?, at)?;
    counted(s, Some(export), end)
}

// A node from the number of its children on.
#[tactic(auto, unfolding(crate::specs::ExportsTrie::counted_at))]
fn counted(s: &[u8], terminal: Option<Export>, at: usize) -> Option<Node>
    ensures { result ≡ counted_at s.now terminal at }
{
    let children = s.get(at).copied()?;
    let place = at + 1;
    Some(Node {
        terminal,
        children,
        place,
    })
}

// The edge at a place.
#[tactic(auto, unfolding(crate::specs::ExportsTrie::edge_at, numbers::specs::Then::then))]
pub fn read_edge(s: &[u8], at: usize) -> Option<Edge>
    ensures { result ≡ edge_at s.now at }
{
    let (name, next) = read_string(s, at)?;
    let (offset, next) = read_uleb(s, next)?;
    Some(Edge { name, offset, next })
}
