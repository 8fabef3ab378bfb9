//! The choice of a `prialt`, as gates and flip-flops: the first case whose partner stands is taken, and no other. The circuit is
//! this project's own.
#![tactic(auto)]

mod cases;
mod choice;
mod picking;

pub use choice::Pick;
pub use picking::pick;
