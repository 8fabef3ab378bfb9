use crate::whole::Whole;
use hc_core::Expr;

/// What an expression of a source is worth: a constant, or an expression of the core with its type.
#[derive(Drop)]
pub enum Value {
    /// A constant, which has no width of its own.
    Constant(Whole),
    /// An expression that has a width and a sign.
    Typed(Expr),
}
