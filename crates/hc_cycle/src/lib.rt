//! The order of what has a value within a clock: signals, RAMs and ROMs, and the plain sends and receives of channels.
#![tactic(auto)]

mod laws;
mod links;
mod ordering;
mod ranks;
mod reads;
mod sets;
mod visit;

pub use laws::{cycle_or_none, cycles_reach_themselves};
pub use ordering::order;
pub use ranks::Ranks;
