//! Control: the tokens of a core's statement. A token starts a statement in a clock in which the statement's start holds, and
//! each form of a statement leads it on by the circuits of `hc_token`. So far without channels.
#![tactic(auto)]

mod actions;
mod arms;
mod condition;
mod labels;
mod listing;
mod looping;
mod parallel;
mod sequence;
mod sides;
mod started;
mod statement;
mod tokens;
mod uses;

pub use tokens::control;
pub use uses::{ObjectUses, Uses};
