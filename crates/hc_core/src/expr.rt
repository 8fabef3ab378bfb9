use hc_num::Num;
use sqlite_items::Boxed;

/// An operator before its operand.
#[derive(Clone, Copy, Debug, PartialEq, Eq)]
pub enum UnOp {
    /// `-a`, modulo 2 to the power of the width.
    Neg,
    /// `~a`, each bit turned.
    Not,
    /// `!a`, one bit: 1 where a is 0.
    IsZero,
    /// A cast to the signed type of the same width.
    ToSigned,
    /// A cast to the unsigned type of the same width.
    ToUnsigned,
}

/// An operator between two operands.
#[derive(Clone, Copy, Debug, PartialEq, Eq)]
pub enum BinOp {
    /// `a + b`
    Add,
    /// `a - b`
    Sub,
    /// `a * b`
    Mul,
    /// `a / b`
    Div,
    /// `a % b`
    Rem,
    /// `a & b`
    And,
    /// `a | b`
    Or,
    /// `a ^ b`
    Xor,
    /// `a == b`, one bit.
    Eq,
    /// `a != b`, one bit.
    Ne,
    /// `a < b`, one bit.
    Lt,
    /// `a <= b`, one bit.
    Le,
    /// `a > b`, one bit.
    Gt,
    /// `a >= b`, one bit.
    Ge,
    /// `a << n`, by an unsigned amount of any width.
    Shl,
    /// `a >> n`, by an unsigned amount of any width.
    Shr,
    /// `a @ b`, the bits of a above those of b.
    Concat,
    /// `a <- n`, the lowest n bits, by a constant of 128 bits.
    Take,
    /// `a \\ n`, all but the lowest n bits, by a constant of 128 bits.
    Drop,
    /// `a && b`, one bit.
    Both,
    /// `a || b`, one bit.
    Either,
}

/// An expression over the objects of a core, which it names by their numbers.
#[derive(Debug, Drop)]
pub enum Expr {
    /// A constant with its type.
    Const(Num),
    /// The number of a register.
    Reg(u32),
    /// An element of an array, by its index.
    Element(u32, Boxed<Expr>),
    /// A word of a RAM or ROM, by its index.
    Word(u32, Boxed<Expr>),
    /// The value of a signal in the clock.
    Signal(u32),
    /// The value of an input in the clock.
    Input(u32),
    /// An operator before its operand, or a cast.
    Unary(UnOp, Boxed<Expr>),
    /// An operator between two operands.
    Binary(BinOp, Boxed<Expr>, Boxed<Expr>),
    /// The bits from a high one to a low one, both counted from 0 at the lowest.
    Slice(Boxed<Expr>, u32, u32),
    /// `c ? a : b`, which is a where c isn't 0.
    Choice(Boxed<Expr>, Boxed<Expr>, Boxed<Expr>),
}
