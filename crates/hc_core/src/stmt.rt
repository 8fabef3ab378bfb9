use crate::expr::Expr;
use crate::object::Nums;
use hc_tree::Place;
use sqlite_items::{Boxed, Items};

/// What an assignment or a receive writes, by its object's number.
#[derive(Debug, Drop)]
pub enum Target {
    /// A register.
    Reg(u32),
    /// An element of an array, by its index.
    Element(u32, Expr),
    /// A word of a RAM, by its index.
    Word(u32, Expr),
    /// A signal, for the clock.
    Signal(u32),
}

/// A statement of a core. The place is that of its first token.
#[cycle(stmt)]
#[derive(Debug, Drop)]
pub enum Stmt {
    /// Nothing; it takes no clock.
    Skip,
    /// `target = value`, one clock.
    Assign {
        place: Place,
        target: Target,
        value: Expr,
    },
    /// `delay`, one clock.
    Delay {
        place: Place,
    },
    /// `chan ! value`, one clock once a receive stands too.
    Send {
        place: Place,
        chan: u32,
        value: Expr,
    },
    /// `chan ? target`, one clock once a send stands too.
    Recv {
        place: Place,
        chan: u32,
        target: Target,
    },
    /// The first case whose partner stands, then its arm. Where no case is ready it waits, or it is `rest`, the arm of
    /// its default.
    Prialt {
        place: Place,
        cases: Cases,
        rest: Option<Boxed<Stmt>>,
    },
    /// One part after the other.
    Seq {
        place: Place,
        parts: Stmts,
    },
    /// All branches at the same time, up to the end of the last.
    Par {
        place: Place,
        branches: Stmts,
    },
    /// `yes` where the condition isn't 0, and else `no`, which is `Skip` where no `else` is written.
    If {
        place: Place,
        condition: Expr,
        yes: Boxed<Stmt>,
        no: Boxed<Stmt>,
    },
    /// The body again and again, as long as the condition isn't 0 before it.
    While {
        place: Place,
        condition: Expr,
        body: Boxed<Stmt>,
    },
    /// The body, and again as long as the condition isn't 0 behind it.
    DoWhile {
        place: Place,
        body: Boxed<Stmt>,
        condition: Expr,
    },
    /// The arm that has the selector's value among its values, or else the arm of `default`, where there is one.
    Switch {
        place: Place,
        selector: Expr,
        arms: Arms,
    },
}

/// A case of `prialt`, with the statement that follows where it is taken.
#[cycle(stmt)]
#[derive(Debug, Drop)]
pub enum Case {
    /// `case chan ! value`
    Send {
        chan: u32,
        value: Expr,
        arm: Stmt,
    },
    /// `case chan ? target`
    Recv {
        chan: u32,
        target: Target,
        arm: Stmt,
    },
}

/// An arm of `switch`: the values of its labels, and whether `default` is one of them.
#[cycle(stmt)]
#[derive(Debug, Drop)]
pub struct Arm {
    pub values: Nums,
    pub other: bool,
    pub body: Stmt,
}

/// Statements in text order.
pub type Stmts = Items<Stmt>;

/// The cases of a `prialt`, in text order.
pub type Cases = Items<Case>;

/// The arms of a `switch`, in text order.
pub type Arms = Items<Arm>;
