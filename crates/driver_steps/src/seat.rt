//! Nodes with their logs.

/// A node with its log. Nodes are in order of their numbers.
#[derive(Drop)]
pub struct Seat<N, L> {
    pub node: N,
    pub log: L,
}
