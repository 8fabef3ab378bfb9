//! What registers and arrays hold after an edge, and what signals show in a clock, as gates: the value of the one write that is on,
//! or what they held; the values that are assigned, or the default.
#![tactic(auto)]

mod array;
mod index;
mod lines;
mod register;
mod signal;

pub use array::hold_array;
pub use register::hold;
pub use signal::present;
