//! The static rules over the core program: loops whose body may take no clock (S16), channels in the cases of `prialt` (S18,
//! S19), accesses of RAMs and ROMs (S20, S21), the labels of a `switch` (S22), and the limit of the weight (L8).
#![tactic(auto)]

mod accesses;
mod cases;
mod channels;
mod finds;
mod labels;
mod loops;
mod numbers;
mod objects;
mod offers;
mod rules;
mod walk;
mod weight;

pub use finds::Finds;
pub use rules::check_rules;
pub use walk::first_where;
pub use weight::check_weight;
