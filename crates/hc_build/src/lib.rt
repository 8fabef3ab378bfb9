//! The netlist of a core: flip-flops for its registers and arrays, its ports, the tokens of its control, and the gates
//! between them. So far without RAMs, signals and channels.
#![tactic(auto)]

mod connect;
mod forms;
mod netlist;
mod objects;
mod sources;

pub use forms::unbuilt;
pub use netlist::build;
