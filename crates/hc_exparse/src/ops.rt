ghost use Rattle.std.specs.Prelude.{◌≡◌};
ghost use Rattle.hc_grammar.specs.Expression as spec;
ghost use Rattle.hc_exparse.specs.Ops as ops;

use hc_grammar::Kind;
use hc_lex::Mark;
use hc_tree::{BinaryOp, UnaryOp};

/// The level on which a mark stands between two operands, from 1 for the strongest, and its operator.
#[tactic(auto, unfolding(hc_grammar::specs::Expression::binary_op))]
fn binary_mark(mark: Mark) -> Option<(u8, BinaryOp)>
    ensures { result ≡ spec.binary_op (Kind.Mark mark) }
{
    match mark {
        Mark::Take => Some((1, BinaryOp::Take)),
        Mark::Drop => Some((1, BinaryOp::Drop)),
        Mark::Star => Some((2, BinaryOp::Multiply)),
        Mark::Slash => Some((2, BinaryOp::Divide)),
        Mark::Percent => Some((2, BinaryOp::Remainder)),
        Mark::Plus => Some((3, BinaryOp::Add)),
        Mark::Minus => Some((3, BinaryOp::Subtract)),
        Mark::At => Some((4, BinaryOp::Concat)),
        Mark::ShiftLeft => Some((5, BinaryOp::ShiftLeft)),
        Mark::ShiftRight => Some((5, BinaryOp::ShiftRight)),
        Mark::Less => Some((6, BinaryOp::Less)),
        Mark::LessEqual => Some((6, BinaryOp::LessEqual)),
        Mark::Greater => Some((6, BinaryOp::Greater)),
        Mark::GreaterEqual => Some((6, BinaryOp::GreaterEqual)),
        Mark::Equal => Some((7, BinaryOp::Equal)),
        Mark::NotEqual => Some((7, BinaryOp::NotEqual)),
        Mark::And => Some((8, BinaryOp::BitAnd)),
        Mark::Xor => Some((9, BinaryOp::BitXor)),
        Mark::Or => Some((10, BinaryOp::BitOr)),
        Mark::AndAnd => Some((11, BinaryOp::Both)),
        Mark::OrOr => Some((12, BinaryOp::Either)),
        Mark::BraceOpen
        | Mark::BraceClose
        | Mark::ParenOpen
        | Mark::ParenClose
        | Mark::BracketOpen
        | Mark::BracketClose
        | Mark::Semicolon
        | Mark::Comma
        | Mark::Colon
        | Mark::Dot
        | Mark::Question
        | Mark::Assign
        | Mark::Tilde
        | Mark::Not
        | Mark::Increment
        | Mark::Decrement
        | Mark::AddAssign
        | Mark::SubtractAssign
        | Mark::MultiplyAssign
        | Mark::DivideAssign
        | Mark::RemainderAssign
        | Mark::AndAssign
        | Mark::OrAssign
        | Mark::XorAssign
        | Mark::ShiftLeftAssign
        | Mark::ShiftRightAssign => None,
    }
}

/// The level on which a token stands between two operands, from 1 for the strongest, and its operator.
#[tactic(auto, unfolding(hc_grammar::specs::Expression::binary_op))]
fn binary_op(kind: Kind) -> Option<(u8, BinaryOp)>
    ensures { result ≡ spec.binary_op kind }
{
    match kind {
        Kind::Mark(mark) => binary_mark(mark),
        Kind::Break
        | Kind::Case
        | Kind::Chan
        | Kind::Default
        | Kind::Delay
        | Kind::Do
        | Kind::Else
        | Kind::External
        | Kind::For
        | Kind::If
        | Kind::IfSelect
        | Kind::Int
        | Kind::Interface
        | Kind::Macro
        | Kind::Par
        | Kind::Prialt
        | Kind::Ram
        | Kind::Rom
        | Kind::Select
        | Kind::Seq
        | Kind::Set
        | Kind::Signal
        | Kind::Signed
        | Kind::Static
        | Kind::Switch
        | Kind::Unsigned
        | Kind::Void
        | Kind::While
        | Kind::Width
        | Kind::With
        | Kind::Main
        | Kind::Clock
        | Kind::Family
        | Kind::Part
        | Kind::Expr
        | Kind::Proc
        | Kind::BusIn
        | Kind::BusOut
        | Kind::Name
        | Kind::Number
        | Kind::Text => None,
    }
}

/// The operator that stands at the front, if it is one of this level.
pub(crate) fn level_op(level: u8, kind: Option<Kind>) -> Option<BinaryOp>
    ensures { result ≡ ops.level_op level kind }
{
    match kind {
        Some(kind) => match binary_op(kind) {
            Some((own, op)) => { if own == level { Some(op) } else { None } }
            None => None,
        },
        None => None,
    }
}

/// The operator that a token is before an operand.
#[tactic(auto, unfolding(hc_grammar::specs::Expression::unary_op))]
pub(crate) fn unary_op(kind: Kind) -> Option<UnaryOp>
    ensures { result ≡ spec.unary_op kind }
{
    match kind {
        Kind::Mark(Mark::Not) => Some(UnaryOp::Not),
        Kind::Mark(Mark::Tilde) => Some(UnaryOp::Complement),
        Kind::Mark(Mark::Minus) => Some(UnaryOp::Negate),
        Kind::Mark(Mark::BraceOpen)
        | Kind::Mark(Mark::BraceClose)
        | Kind::Mark(Mark::ParenOpen)
        | Kind::Mark(Mark::ParenClose)
        | Kind::Mark(Mark::BracketOpen)
        | Kind::Mark(Mark::BracketClose)
        | Kind::Mark(Mark::Semicolon)
        | Kind::Mark(Mark::Comma)
        | Kind::Mark(Mark::Colon)
        | Kind::Mark(Mark::Dot)
        | Kind::Mark(Mark::Question)
        | Kind::Mark(Mark::Assign)
        | Kind::Mark(Mark::Plus)
        | Kind::Mark(Mark::Star)
        | Kind::Mark(Mark::Slash)
        | Kind::Mark(Mark::Percent)
        | Kind::Mark(Mark::And)
        | Kind::Mark(Mark::Or)
        | Kind::Mark(Mark::Xor)
        | Kind::Mark(Mark::Less)
        | Kind::Mark(Mark::Greater)
        | Kind::Mark(Mark::At)
        | Kind::Mark(Mark::Increment)
        | Kind::Mark(Mark::Decrement)
        | Kind::Mark(Mark::ShiftLeft)
        | Kind::Mark(Mark::ShiftRight)
        | Kind::Mark(Mark::LessEqual)
        | Kind::Mark(Mark::GreaterEqual)
        | Kind::Mark(Mark::Equal)
        | Kind::Mark(Mark::NotEqual)
        | Kind::Mark(Mark::AndAnd)
        | Kind::Mark(Mark::OrOr)
        | Kind::Mark(Mark::Take)
        | Kind::Mark(Mark::Drop)
        | Kind::Mark(Mark::AddAssign)
        | Kind::Mark(Mark::SubtractAssign)
        | Kind::Mark(Mark::MultiplyAssign)
        | Kind::Mark(Mark::DivideAssign)
        | Kind::Mark(Mark::RemainderAssign)
        | Kind::Mark(Mark::AndAssign)
        | Kind::Mark(Mark::OrAssign)
        | Kind::Mark(Mark::XorAssign)
        | Kind::Mark(Mark::ShiftLeftAssign)
        | Kind::Mark(Mark::ShiftRightAssign)
        | Kind::Break
        | Kind::Case
        | Kind::Chan
        | Kind::Default
        | Kind::Delay
        | Kind::Do
        | Kind::Else
        | Kind::External
        | Kind::For
        | Kind::If
        | Kind::IfSelect
        | Kind::Int
        | Kind::Interface
        | Kind::Macro
        | Kind::Par
        | Kind::Prialt
        | Kind::Ram
        | Kind::Rom
        | Kind::Select
        | Kind::Seq
        | Kind::Set
        | Kind::Signal
        | Kind::Signed
        | Kind::Static
        | Kind::Switch
        | Kind::Unsigned
        | Kind::Void
        | Kind::While
        | Kind::Width
        | Kind::With
        | Kind::Main
        | Kind::Clock
        | Kind::Family
        | Kind::Part
        | Kind::Expr
        | Kind::Proc
        | Kind::BusIn
        | Kind::BusOut
        | Kind::Name
        | Kind::Number
        | Kind::Text => None,
    }
}

/// Whether a type begins with a token.
#[tactic(auto, unfolding(hc_grammar::specs::Expression::begins_type))]
pub(crate) fn begins_type(kind: Kind) -> bool
    ensures { result ≡ spec.begins_type kind }
{
    match kind {
        Kind::Unsigned | Kind::Signed | Kind::Int => true,
        Kind::Break
        | Kind::Case
        | Kind::Chan
        | Kind::Default
        | Kind::Delay
        | Kind::Do
        | Kind::Else
        | Kind::External
        | Kind::For
        | Kind::If
        | Kind::IfSelect
        | Kind::Interface
        | Kind::Macro
        | Kind::Par
        | Kind::Prialt
        | Kind::Ram
        | Kind::Rom
        | Kind::Select
        | Kind::Seq
        | Kind::Set
        | Kind::Signal
        | Kind::Static
        | Kind::Switch
        | Kind::Void
        | Kind::While
        | Kind::Width
        | Kind::With
        | Kind::Main
        | Kind::Clock
        | Kind::Family
        | Kind::Part
        | Kind::Expr
        | Kind::Proc
        | Kind::BusIn
        | Kind::BusOut
        | Kind::Name
        | Kind::Number
        | Kind::Text
        | Kind::Mark(_) => false,
    }
}
