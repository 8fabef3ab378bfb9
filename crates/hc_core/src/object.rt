use crate::expr::Expr;
use crate::stmt::Stmt;
use hc_num::Num;
use hc_tree::{Name, Place};
use sqlite_items::Items;

/// Numbers in order: the first elements of an array, the first words of a RAM or ROM, or the values of a label.
pub type Nums = Items<Num>;

/// The names of a port's pins, that of the lowest bit first; none for a port without pins.
pub type PinNames = Items<Name>;

/// What an object is. Widths are in bits, from 1 to 128, and lengths are numbers of elements or words.
#[derive(Debug, Drop)]
pub enum Kind {
    /// A register, which starts with `init`.
    Reg {
        width: u32,
        signed: bool,
        init: Num,
    },
    /// An array of registers, of which the first start with `init` and the others with 0.
    Array {
        width: u32,
        signed: bool,
        length: u32,
        init: Nums,
    },
    /// A memory that is written and read a word at a time. The first words start with `init` and the others with 0.
    Ram {
        width: u32,
        signed: bool,
        length: u32,
        init: Nums,
    },
    /// A memory that is only read. The first words are `init` and the others 0.
    Rom {
        width: u32,
        signed: bool,
        length: u32,
        init: Nums,
    },
    /// A signal, whose value in a clock is what is assigned to it in that clock, or `unset`.
    Signal {
        width: u32,
        signed: bool,
        unset: Num,
    },
    /// A channel. It has no places yet, and `queue` is 0.
    Chan {
        width: u32,
        signed: bool,
        queue: u32,
    },
    /// A port that is read.
    Input {
        width: u32,
        signed: bool,
        pins: PinNames,
    },
    /// A port that has the value of an expression in each clock.
    Output {
        width: u32,
        signed: bool,
        pins: PinNames,
        value: Expr,
    },
}

/// An object that a declaration makes, with its name and the place of that name.
#[derive(Debug, Drop)]
pub struct Object {
    pub name: Name,
    pub place: Place,
    pub kind: Kind,
}

/// The objects of a core, numbered from 0.
pub type Objects = Items<Object>;

/// A program after expansion: its objects, the statement of `main`, and the name of the clock pin.
#[derive(Debug, Drop)]
pub struct Core {
    pub objects: Objects,
    pub main: Stmt,
    pub clock: Name,
}
