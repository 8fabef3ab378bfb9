//! Circuits of gates for the operators on numbers: adders, comparers, shifters and selectors. Nets stand lowest bit first.
//! Each call adds gates alone, at most as many as its clause says, and in every clock its nets hold the operator's number of
//! what its arguments hold (`hc_num` says which). The circuits are this project's own.
#![tactic(auto)]

mod adder;
mod any_bit;
mod carry;
mod compare;
mod decoder;
mod each;
mod gates;
mod group;
mod less;
mod logic;
mod prefix;
mod selector;
mod shift;

pub use adder::{add, negate, sub};
pub use any_bit::truth;
pub use compare::equal;
pub use decoder::decode;
pub use less::{less_signed, less_unsigned};
pub use logic::{band, bor, bxor, invert};
pub use selector::mux;
pub use shift::{shift_left, shift_right_sign, shift_right_zero};
