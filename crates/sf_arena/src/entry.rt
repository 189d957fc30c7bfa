//! What an arena holds.
use sf_refusal::Spot;

/// A node with its depth and its place in a text.
#[derive(Clone, Copy, Debug, Drop, PartialEq, Eq)]
pub struct Entry<N> {
    /// The node, which may name its parts by the numbers that the arena gave them.
    pub node: N,
    /// How many nodes stand one inside another in the tree of the node.
    pub depth: u32,
    /// Where the node stands in a text.
    pub spot: Spot,
}
