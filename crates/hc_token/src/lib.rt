//! Circuits of control: one flip-flop holds the token of an action for a clock, and gates lead tokens through sequences,
//! branches, loops and parallel parts. Each call adds gates and flip-flops alone, at most as many as its clause says, and says
//! of its nets what they hold in every clock and what they reach. The circuits are this project's own.
#![tactic(auto)]

mod action;
mod ends;
mod gates;
mod latches;
mod looping;
mod parallel;
mod sequence;
mod side;
mod waiting;

pub use action::act;
pub use ends::Ends;
pub use gates::{all, and, not, or};
pub use looping::again;
pub use parallel::join;
pub use sequence::follow;
pub use side::branch;
