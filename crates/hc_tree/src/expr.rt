use crate::name::Ident;
use crate::place::Place;
use sqlite_items::{Boxed, Items};

/// An operator before its operand.
#[derive(Clone, Copy, Debug, PartialEq, Eq)]
pub enum UnaryOp {
    /// `!`
    Not,
    /// `~`
    Complement,
    /// `-`
    Negate,
}

/// An operator between two operands.
#[derive(Clone, Copy, Debug, PartialEq, Eq)]
pub enum BinaryOp {
    /// `<-`
    Take,
    /// `\\`
    Drop,
    /// `*`
    Multiply,
    /// `/`
    Divide,
    /// `%`
    Remainder,
    /// `+`
    Add,
    /// `-`
    Subtract,
    /// `@`
    Concat,
    /// `<<`
    ShiftLeft,
    /// `>>`
    ShiftRight,
    /// `<`
    Less,
    /// `<=`
    LessEqual,
    /// `>`
    Greater,
    /// `>=`
    GreaterEqual,
    /// `==`
    Equal,
    /// `!=`
    NotEqual,
    /// `&`
    BitAnd,
    /// `^`
    BitXor,
    /// `|`
    BitOr,
    /// `&&`
    Both,
    /// `||`
    Either,
}

/// An expression. Round brackets around one leave no trace but in places: an expression has the place of its first
/// token, which may be the bracket around its first operand.
#[cycle(expr)]
#[derive(Drop)]
pub enum ExprTree {
    /// A number.
    Number {
        place: Place,
        value: u128,
    },
    /// A name: of an object, of a replicator's variable, of a parameter, or of a macro without parameters.
    Name(Ident),
    /// `name ( [ expr { , expr } ] )`
    Call {
        name: Ident,
        arguments: Items<ExprTree>,
    },
    /// `name . name`, the port of an interface.
    Port {
        interface: Ident,
        port: Ident,
    },
    /// `width ( expr )`
    Width {
        place: Place,
        of: Boxed<ExprTree>,
    },
    /// `select ( expr , expr , expr )`
    Select {
        place: Place,
        condition: Boxed<ExprTree>,
        yes: Boxed<ExprTree>,
        no: Boxed<ExprTree>,
    },
    /// `expr [ expr ]`, an element or one bit.
    Index {
        place: Place,
        of: Boxed<ExprTree>,
        at: Boxed<ExprTree>,
    },
    /// `expr [ expr : expr ]`, the bits from the high one to the low one.
    Bits {
        place: Place,
        of: Boxed<ExprTree>,
        high: Boxed<ExprTree>,
        low: Boxed<ExprTree>,
    },
    /// An operator before its operand.
    Unary {
        place: Place,
        op: UnaryOp,
        of: Boxed<ExprTree>,
    },
    /// `( type ) expr`
    Cast {
        place: Place,
        to: Type,
        of: Boxed<ExprTree>,
    },
    /// An operator between two operands.
    Binary {
        place: Place,
        left: Boxed<ExprTree>,
        op: BinaryOp,
        right: Boxed<ExprTree>,
    },
    /// `expr ? expr : expr`
    Choice {
        place: Place,
        condition: Boxed<ExprTree>,
        yes: Boxed<ExprTree>,
        no: Boxed<ExprTree>,
    },
}

/// `type = unsigned [ int ] size | [ signed ] int size | signed size`
#[cycle(expr)]
#[derive(Drop)]
pub enum Type {
    /// `unsigned [ int ] size`
    Unsigned {
        place: Place,
        is_int: bool,
        size: Size,
    },
    /// `[ signed ] int size`
    Int {
        place: Place,
        is_signed: bool,
        size: Size,
    },
    /// `signed size`
    Signed {
        place: Place,
        size: Size,
    },
}

/// `size = number | name | ( expr )`, a width in bits.
#[cycle(expr)]
#[derive(Drop)]
pub enum Size {
    Number { place: Place, value: u128 },
    Name(Ident),
    Expr(Boxed<ExprTree>),
}
