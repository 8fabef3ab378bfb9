//! An order of the nodes of a graph, or a cycle in it.
#![tactic(auto)]

mod cycle;
mod graph;
mod search;
mod sorting;
#[cfg(test)]
mod tests;

pub use graph::{Fork, Sorted};
pub use sorting::sort;
