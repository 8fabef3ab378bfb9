use crate::expr::{ExprTree, Type};
use crate::name::{Ident, Name};
use crate::place::Place;
use sqlite_items::Items;

/// Whether a memory may be written.
#[derive(Clone, Copy, Debug, PartialEq, Eq)]
pub enum MemoryKind {
    Ram,
    Rom,
}

/// A declaration, of one or more objects of one type.
#[derive(Drop)]
pub enum Decl {
    /// `[ static ] type var { , var } [ with ] ;`
    Vars {
        place: Place,
        is_static: bool,
        of: Type,
        vars: Items<Var>,
        with: Option<With>,
    },
    /// `[ static ] ( ram | rom ) type mem { , mem } [ with ] ;`
    Memories {
        place: Place,
        is_static: bool,
        kind: MemoryKind,
        of: Type,
        memories: Items<Mem>,
        with: Option<With>,
    },
    /// `signal boxed sig { , sig } [ with ] ;`
    Signals {
        place: Place,
        of: BoxedType,
        signals: Items<Sig>,
        with: Option<With>,
    },
    /// `chan boxed name { , name } [ with ] ;`
    Chans {
        place: Place,
        of: BoxedType,
        names: Items<Ident>,
        with: Option<With>,
    },
}

/// `boxed = type | < type >`
#[derive(Drop)]
pub enum BoxedType {
    Bare(Type),
    InAngles(Type),
}

/// `var = name [ = expr ] | mem`, a register with its initial value, or an array.
#[derive(Drop)]
pub enum Var {
    Register { name: Ident, init: Option<ExprTree> },
    Array(Mem),
}

/// `mem = name [ expr ] [ = { expr { , expr } } ]`, where the first pair of square brackets and the inner braces are
/// written: an array, RAM or ROM with its length and its initial values.
#[derive(Drop)]
pub struct Mem {
    pub name: Ident,
    pub length: ExprTree,
    pub init: Option<Items<ExprTree>>,
}

/// `sig = name [ = expr ]`, a signal with its default.
#[derive(Drop)]
pub struct Sig {
    pub name: Ident,
    pub unset: Option<ExprTree>,
}

/// `with = with { spec { , spec } }`, where the outer braces are written.
#[derive(Drop)]
pub struct With {
    pub specs: Items<Spec>,
}

/// `spec = name = ( expr | text | { text { , text } } )`, where the outer braces are written. Its place is that of its
/// name.
#[derive(Drop)]
pub struct Spec {
    pub name: Ident,
    pub value: SpecValue,
}

/// The value of a `with` entry.
#[derive(Drop)]
pub enum SpecValue {
    Expr(ExprTree),
    Text(Name),
    Texts(Items<Name>),
}
