//! Names, texts, expressions and types, read from a cursor by recursive descent: a function for each form of
//! `specs/Expression.antt` of the grammar, proved to read what the form reads and to stop where it stops.
#![tactic(auto)]

mod binary;
mod expression;
mod halt;
mod list;
mod made;
mod names;
mod ops;
mod parse;
mod part;
mod postfix;
mod primary;
mod types;
mod unary;

pub use expression::expr;
pub use list::{args, more_exprs};
pub use names::{name, text};
pub use parse::parse_expr;
pub use types::type_of;
