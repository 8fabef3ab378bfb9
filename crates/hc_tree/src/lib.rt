//! What the stages before the core program share: places in a source, names, the rules and limits that a source may
//! break, refusals, and the tree of a source.
//!
//! The tree has one type a rule of the grammar, in the files `item`, `decl`, `stmt` and `expr`. A rule with
//! alternatives is an enum with a variant for each, and every other rule is a struct; the fields stand in the order of
//! writing. Each type's comment has its line of the grammar, in which `[ x ]` is at most one x and `{ x }` any number.
#![tactic(auto)]

mod decl;
mod expr;
mod item;
mod name;
mod place;
mod refusal;
mod stmt;

pub use decl::{BoxedType, Decl, Mem, MemoryKind, Sig, Spec, SpecValue, Var, With};
pub use expr::{BinaryOp, ExprTree, Size, Type, UnaryOp};
pub use item::{Interface, Item, Tree};
pub use name::{Ident, Name};
pub use place::Place;
pub use refusal::{Detail, FrontErr, NoMemory, Node, Nodes, Refusal, Rule};
pub use stmt::{
    Arm, Assign, Block, Case, Condition, Label, LocalItem, Macro, Offer, Order, Other, Params,
    Simple, Step, Stmt, Target,
};
