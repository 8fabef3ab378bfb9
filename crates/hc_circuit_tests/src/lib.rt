//! Tests of netlists and of their benches by what their crates offer. They stand apart, so that no crate is proved once more
//! for its tests. Circuits of operators are run by the corpus, as netlists that the program builds.
#![tactic(auto)]

#[cfg(test)]
mod memory;
#[cfg(test)]
mod net;
#[cfg(test)]
mod netsim;
#[cfg(test)]
mod stim;
