//! Netlists of flip-flops, gates and RAMs, what they do clock by clock, and a builder that makes them.
//!
//! A `Net` keeps the rules of a valid netlist. A `Builder` takes ports, flip-flops, gates, RAMs and placeholders in any
//! order in which they come up, and `seal` gives the netlist with the same behaviour.
#![tactic(auto)]

mod builder;
mod gate;
mod label;
mod laws;
mod net;
mod nets;
mod node;
mod pins;
mod ram;
mod ram_nodes;
mod seal;
mod valid;

pub use builder::Builder;
pub use gate::GateKind;
pub use label::Label;
pub use laws::settles_once;
pub use net::{Cell, Cells, Flop, FlopName, Flops, Net, Port, Ports, RawNet};
pub use nets::{Nets, NoMemory};
pub use node::{Node, Nodes};
pub use pins::Pins;
pub use ram::{Bits, RamCell, RamWires};
pub use valid::{TextErr, ValidErr, Validity};
