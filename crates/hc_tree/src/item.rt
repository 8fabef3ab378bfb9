use crate::decl::{Decl, With};
use crate::expr::{ExprTree, Type};
use crate::name::{Ident, Name};
use crate::place::Place;
use crate::stmt::{Block, Macro};
use sqlite_items::Items;

/// A whole source: `program = { item }`
#[derive(Drop)]
pub struct Tree {
    pub items: Items<Item>,
}

/// What stands at the outermost level of a source.
#[derive(Drop)]
pub enum Item {
    /// `set clock = external text [ with ] ;`
    Clock {
        place: Place,
        pin: Name,
        with: Option<With>,
    },
    /// `set family = name ;`
    Family {
        place: Place,
        name: Ident,
    },
    /// `set part = text ;`
    Part {
        place: Place,
        part: Name,
    },
    Decl(Decl),
    Interface(Interface),
    Macro(Macro),
    /// `void main ( [ void ] ) block`
    Main {
        place: Place,
        says_void: bool,
        body: Block,
    },
}

/// An input or an output of the netlist.
#[derive(Drop)]
pub enum Interface {
    /// `interface bus_in ( type name ) name ( ) [ with ] ;`
    BusIn {
        place: Place,
        of: Type,
        port: Ident,
        name: Ident,
        with: Option<With>,
    },
    /// `interface bus_out ( ) name ( type name = expr ) [ with ] ;`
    BusOut {
        place: Place,
        name: Ident,
        of: Type,
        port: Ident,
        value: ExprTree,
        with: Option<With>,
    },
}
