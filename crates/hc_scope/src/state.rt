use hc_core::Objects;

/// What is made while a tree is expanded: the objects so far, and how many nodes of the tree were visited.
#[derive(Drop)]
pub struct State {
    /// The objects so far; the number of an object is its index, from 0.
    pub objects: Objects,
    /// The nodes that were visited, which L5 limits.
    pub visited: u32,
}
