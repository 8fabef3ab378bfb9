use sqlite_items::Items;

/// The nodes that a node of a graph leads to, two at most. The number of no node leads nowhere.
#[derive(Clone, Copy, Debug, PartialEq, Eq)]
pub struct Fork {
    pub first: Option<u32>,
    pub second: Option<u32>,
}

/// What sorting a graph finds.
#[derive(Debug, Drop)]
pub enum Sorted {
    /// A number for each node, above those of the nodes that it leads to.
    Ranks(Items<u32>),
    /// A cycle, the least node first.
    Cycle(Items<u32>),
}
