//! Expressions as gates: the circuit of an expression of the core, over the nets of the objects that it reads.
#![tactic(auto)]

mod binary;
mod choice;
mod compare;
mod constant;
mod element;
mod expression;
mod lists;
mod logic;
mod moved;
mod objects;
mod operand;
mod shape;
mod unary;

pub use expression::value;
pub use objects::{NetLists, ObjectNets};
