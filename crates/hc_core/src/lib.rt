//! The core program: objects, expressions and statements as they are after expansion, without names, macros and sugar.
//! `specs/` has the definitions over it: the types of expressions, soundness, which statements may take no clock, which
//! values within a clock depend on which, and the weight.
#![tactic(auto)]

mod expr;
mod laws;
mod measure;
mod object;
mod stmt;

pub use expr::{BinOp, Expr, UnOp};
pub use laws::types_are_unique;
pub use measure::{flops, weight};
pub use object::{Core, Kind, Nums, Object, Objects, PinNames};
pub use stmt::{Arm, Arms, Case, Cases, Stmt, Stmts, Target};
