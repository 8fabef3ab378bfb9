//! Numbers of a width from 1 to 128 bits, with or without a sign, and every operator of the language on them.
//! Whole numbers say what each operator gives: `specs/` has one definition for each, over any width.
#![tactic(auto)]

mod arithmetic;
mod bits;
mod compare;
mod index;
mod num;
mod parts;
mod shift;

pub use index::aw;
pub use num::Num;
