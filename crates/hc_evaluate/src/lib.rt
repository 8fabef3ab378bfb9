//! What is expanded of expressions: values, types, conditions and first values; and what stands on expressions alone: targets,
//! channels, assignments, what is sent and received, and the step of a replicator. All of it leaves the objects as they are.
#![tactic(auto)]

mod assignment;
mod channel;
mod conditions;
mod constants;
mod expressions;
mod first_values;
mod index;
mod operators;
mod parts;
mod replicator;
mod sending;
mod targets;
mod types;
mod values;
mod writing;

pub use assignment::simple_form;
pub use channel::{Channel, find_channel, received, sent};
pub use conditions::{condition, condition_or_one};
pub use constants::{initial, initial_or_zero};
pub use expressions::{constant, expression, type_of};
pub use first_values::{elements, words};
pub use replicator::step;
pub use sending::{receive, send};
