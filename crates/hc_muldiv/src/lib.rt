//! Circuits of gates for products, quotients and remainders. Nets stand lowest bit first. Each call adds gates alone, at most
//! as many as its clause says, and in every clock its nets hold the operator's number of what its arguments hold (`hc_num`
//! says which). The circuits are this project's own.
#![tactic(auto)]

mod divide;
mod joined;
mod multiply;

pub use divide::{quotient, remainder};
pub use multiply::times;
