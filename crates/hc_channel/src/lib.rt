//! Ends of channels, as gates and flip-flops: a send or a receive stands, and waits clock by clock, until the other end stands
//! too. The circuit is this project's own.
#![tactic(auto)]

mod end;
mod offering;

pub use end::Offer;
pub use offering::offer;
