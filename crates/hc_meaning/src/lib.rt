//! The clock law: what a core program does, clock by clock. `specs/` has it as definitions, and `laws` what follows of them.
#![tactic(auto)]

mod laws;

pub use laws::{clean_clock, nets_are_the_clock, numbers_in_order, one_instant, one_run};
