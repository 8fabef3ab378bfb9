use hc_tree::{ExprTree, Ident};
use sqlite_items::Items;

/// What stands behind a name.
#[derive(Drop)]
pub(crate) enum NameTail {
    Alone,
    /// The arguments of a call.
    Call(Items<ExprTree>),
    /// The port of an interface.
    Port(Ident),
}

/// The words of a type before its size.
#[derive(Clone, Copy)]
pub(crate) enum TypeHead {
    /// `unsigned [ int ]`
    Unsigned(bool),
    /// `[ signed ] int`
    Int(bool),
    /// `signed`
    Signed,
}
