//! Runs a netlist of flip-flops, gates and RAMs clock by clock: each clock is one pass over the cells in the order of their
//! nets and one over the RAMs, and takes no memory.
#![tactic(auto)]

mod cells;
mod clock;
mod gates;
mod inputs;
mod laws;
mod memory;
mod numbers;
mod outputs;
mod room;
mod settle;

pub use gates::Gates;
pub use laws::runs_as_netlist;
