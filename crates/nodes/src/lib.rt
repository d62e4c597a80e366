// What the bytes of an exports trie hold: nodes, what a node exports, the edges to its children, and
// what is read where a child is entered.

#![tactic(auto)]

pub mod child;
pub mod export;
pub mod node;
