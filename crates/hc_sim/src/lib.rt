//! Runs a core clock by clock, by the clock law itself. So far: what objects hold, from the start and behind the writes of an
//! edge, and the number of an expression in a clock.
#![tactic(auto)]

mod operators;
mod store;
mod world;

pub use store::{Store, Write};
pub use world::Instant;
