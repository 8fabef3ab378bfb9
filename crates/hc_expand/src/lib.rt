//! Expansion: from the tree of a source to its core program, or to the first of the rules S4 to S15, S23 and S24 and the
//! limits L4 to L7 and L9 that the source breaks. What a tree expands to stands in `hc_scope`; here are its statements, the
//! whole of a source, and the laws of it.
#![tactic(auto)]

mod arms;
mod blocks;
mod branching;
mod cases;
mod compound;
mod laws;
mod looping;
mod prialt;
mod procedure;
mod program;
mod sequence;
mod statement;
mod statements;
mod switch;
mod turns;

pub use laws::{core_or_refusal, never_both, one_core, one_refusal};
pub use program::expand;
