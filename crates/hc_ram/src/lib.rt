//! What drives the pins of a RAM or ROM, as gates: the index, write net and value of the one use that is on. The circuit is this
//! project's own.
#![tactic(auto)]

mod append;
mod enabled;
mod ports;
mod sources;
mod writers;

pub use ports::port;
