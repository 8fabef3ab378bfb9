//! The width rules: which type an operator gives its operands, which value it gives constants, and which rule of S8 to
//! S14 it breaks first. `specs/` has them as one clause a form.
#![tactic(auto)]

mod arithmetic;
mod beside;
mod choice;
mod constants;
mod fitting;
mod group;
mod judging;
mod making;
mod one_operand;
mod parts;
mod two_operands;
mod types;
mod value;
mod whole;

pub use choice::choose;
pub use fitting::fit;
pub use one_operand::{cast, unary};
pub use parts::cut;
pub use two_operands::binary;
pub use types::type_of;
pub use value::Value;
pub use whole::Whole;
