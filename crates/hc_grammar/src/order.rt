ghost use Rattle.std.specs.Prelude.{◌≡◌};
ghost use Rattle.hc_grammar.specs.Order as spec;

use crate::kind::Kind;
use hc_lex::Mark;

/// The number of a mark among the kinds.
#[tactic(auto, unfolding(crate::specs::Order::mark_number))]
fn mark_number(mark: Mark) -> u8
    ensures { result ≡ spec.mark_number mark }
{
    match mark {
        Mark::BraceOpen => 0,
        Mark::BraceClose => 1,
        Mark::ParenOpen => 2,
        Mark::ParenClose => 3,
        Mark::BracketOpen => 4,
        Mark::BracketClose => 5,
        Mark::Semicolon => 6,
        Mark::Comma => 7,
        Mark::Colon => 8,
        Mark::Dot => 9,
        Mark::Question => 10,
        Mark::Assign => 11,
        Mark::Plus => 12,
        Mark::Minus => 13,
        Mark::Star => 14,
        Mark::Slash => 15,
        Mark::Percent => 16,
        Mark::And => 17,
        Mark::Or => 18,
        Mark::Xor => 19,
        Mark::Tilde => 20,
        Mark::Not => 21,
        Mark::Less => 22,
        Mark::Greater => 23,
        Mark::At => 24,
        Mark::Increment => 25,
        Mark::Decrement => 26,
        Mark::ShiftLeft => 27,
        Mark::ShiftRight => 28,
        Mark::LessEqual => 29,
        Mark::GreaterEqual => 30,
        Mark::Equal => 31,
        Mark::NotEqual => 32,
        Mark::AndAnd => 33,
        Mark::OrOr => 34,
        Mark::Take => 35,
        Mark::Drop => 36,
        Mark::AddAssign => 37,
        Mark::SubtractAssign => 38,
        Mark::MultiplyAssign => 39,
        Mark::DivideAssign => 40,
        Mark::RemainderAssign => 41,
        Mark::AndAssign => 42,
        Mark::OrAssign => 43,
        Mark::XorAssign => 44,
        Mark::ShiftLeftAssign => 45,
        Mark::ShiftRightAssign => 46,
    }
}

/// The number of a kind in a fixed order, by which kinds are told apart.
#[tactic(auto, unfolding(crate::specs::Order::number))]
pub(crate) fn number(kind: Kind) -> u8
    ensures { result ≡ spec.number kind }
{
    match kind {
        Kind::Mark(mark) => mark_number(mark),
        Kind::Break => 47,
        Kind::Case => 48,
        Kind::Chan => 49,
        Kind::Default => 50,
        Kind::Delay => 51,
        Kind::Do => 52,
        Kind::Else => 53,
        Kind::External => 54,
        Kind::For => 55,
        Kind::If => 56,
        Kind::IfSelect => 57,
        Kind::Int => 58,
        Kind::Interface => 59,
        Kind::Macro => 60,
        Kind::Par => 61,
        Kind::Prialt => 62,
        Kind::Ram => 63,
        Kind::Rom => 64,
        Kind::Select => 65,
        Kind::Seq => 66,
        Kind::Set => 67,
        Kind::Signal => 68,
        Kind::Signed => 69,
        Kind::Static => 70,
        Kind::Switch => 71,
        Kind::Unsigned => 72,
        Kind::Void => 73,
        Kind::While => 74,
        Kind::Width => 75,
        Kind::With => 76,
        Kind::Main => 77,
        Kind::Clock => 78,
        Kind::Family => 79,
        Kind::Part => 80,
        Kind::Expr => 81,
        Kind::Proc => 82,
        Kind::BusIn => 83,
        Kind::BusOut => 84,
        Kind::Name => 85,
        Kind::Number => 86,
        Kind::Text => 87,
    }
}
