use crate::decl::Decl;
use crate::expr::ExprTree;
use crate::name::Ident;
use crate::place::Place;
use sqlite_items::{Boxed, Items};

/// `params = ( [ name { , name } ] )`
#[derive(Drop)]
pub struct Params {
    pub names: Items<Ident>,
}

/// Whether parts are done one after another or side by side.
#[derive(Clone, Copy, Debug, PartialEq, Eq)]
pub enum Order {
    Seq,
    Par,
}

/// The word before a condition with one or two branches.
#[derive(Clone, Copy, Debug, PartialEq, Eq)]
pub enum Condition {
    If,
    IfSelect,
}

/// `assign`, the mark between a target and its new value.
#[derive(Clone, Copy, Debug, PartialEq, Eq)]
pub enum Assign {
    /// `=`
    Set,
    /// `+=`
    Add,
    /// `-=`
    Subtract,
    /// `*=`
    Multiply,
    /// `/=`
    Divide,
    /// `%=`
    Remainder,
    /// `&=`
    And,
    /// `|=`
    Or,
    /// `^=`
    Xor,
    /// `<<=`
    ShiftLeft,
    /// `>>=`
    ShiftRight,
}

/// `++` or `--`
#[derive(Clone, Copy, Debug, PartialEq, Eq)]
pub enum Step {
    Up,
    Down,
}

/// `place = name [ [ expr ] ]`, what is written: a name, perhaps with an index in square brackets.
#[derive(Drop)]
pub struct Target {
    pub name: Ident,
    pub index: Option<ExprTree>,
}

/// A statement that may stand in a `for` or be a replicator's step.
#[derive(Drop)]
pub enum Simple {
    /// `place assign expr`
    Assign {
        place: Place,
        target: Target,
        assign: Assign,
        value: ExprTree,
    },
    /// `place ( ++ | -- )`
    After {
        place: Place,
        target: Target,
        step: Step,
    },
    /// `( ++ | -- ) place`
    Before {
        place: Place,
        step: Step,
        target: Target,
    },
}

/// `macro expr name [ params ] = expr ;` or `macro proc name params block`
#[cycle(stmt)]
#[derive(Drop)]
pub enum Macro {
    Expr {
        place: Place,
        name: Ident,
        params: Option<Params>,
        value: ExprTree,
    },
    Proc {
        place: Place,
        name: Ident,
        params: Params,
        body: Block,
    },
}

/// What a block declares.
#[cycle(stmt)]
#[derive(Drop)]
pub enum LocalItem {
    Decl(Decl),
    Macro(Macro),
}

/// `block = { { decl | macro } { stmt } }`, where the outer braces are written.
#[cycle(stmt)]
#[derive(Drop)]
pub struct Block {
    pub place: Place,
    pub declared: Items<LocalItem>,
    pub stmts: Items<Stmt>,
}

/// A statement.
#[cycle(stmt)]
#[derive(Drop)]
pub enum Stmt {
    /// `;`
    Empty {
        place: Place,
    },
    Block(Block),
    /// `seq block`
    Seq {
        place: Place,
        body: Block,
    },
    /// `par block`
    Par {
        place: Place,
        body: Block,
    },
    /// `( seq | par ) ( name = expr ; expr ; simple ) block`, where the second pair of brackets is written.
    Replicator {
        place: Place,
        order: Order,
        name: Ident,
        first: ExprTree,
        condition: ExprTree,
        step: Simple,
        body: Block,
    },
    /// `simple ;`
    Simple(Simple),
    /// `delay ;`
    Delay {
        place: Place,
    },
    /// `name ! expr ;`
    Send {
        place: Place,
        channel: Ident,
        value: ExprTree,
    },
    /// `name ? place ;`
    Receive {
        place: Place,
        channel: Ident,
        target: Target,
    },
    /// `name ( [ expr { , expr } ] ) ;`
    Call {
        place: Place,
        name: Ident,
        arguments: Items<ExprTree>,
    },
    /// `( if | ifselect ) ( expr ) stmt [ else stmt ]`, where the second pair of brackets is written.
    If {
        place: Place,
        word: Condition,
        condition: ExprTree,
        yes: Boxed<Stmt>,
        no: Option<Boxed<Stmt>>,
    },
    /// `while ( expr ) stmt`
    While {
        place: Place,
        condition: ExprTree,
        body: Boxed<Stmt>,
    },
    /// `do stmt while ( expr ) ;`
    DoWhile {
        place: Place,
        body: Boxed<Stmt>,
        condition: ExprTree,
    },
    /// `for ( [ simple ] ; [ expr ] ; [ simple ] ) stmt`
    For {
        place: Place,
        first: Option<Simple>,
        condition: Option<ExprTree>,
        step: Option<Simple>,
        body: Boxed<Stmt>,
    },
    /// `switch ( expr ) { { arm } }`, where the outer braces are written.
    Switch {
        place: Place,
        selector: ExprTree,
        arms: Items<Arm>,
    },
    /// `prialt { case { case } [ other ] }`, where the outer braces are written.
    Prialt {
        place: Place,
        cases: Items<Case>,
        other: Option<Other>,
    },
}

/// `label = case expr : | default :`
#[derive(Drop)]
pub enum Label {
    Case { place: Place, value: ExprTree },
    Default { place: Place },
}

/// `arm = label { label } { stmt } [ break ; ]`
#[cycle(stmt)]
#[derive(Drop)]
pub struct Arm {
    pub place: Place,
    pub labels: Items<Label>,
    pub stmts: Items<Stmt>,
    pub has_break: bool,
}

/// What a case of `prialt` waits for: that its value is taken, or that its target is given one.
#[derive(Drop)]
pub enum Offer {
    /// `! expr`
    Send(ExprTree),
    /// `? place`
    Receive(Target),
}

/// `case = case name ( ! expr | ? place ) : { stmt } [ break ; ]`
#[cycle(stmt)]
#[derive(Drop)]
pub struct Case {
    pub place: Place,
    pub channel: Ident,
    pub offer: Offer,
    pub stmts: Items<Stmt>,
    pub has_break: bool,
}

/// `other = default : { stmt } [ break ; ]`
#[cycle(stmt)]
#[derive(Drop)]
pub struct Other {
    pub place: Place,
    pub stmts: Items<Stmt>,
    pub has_break: bool,
}
