ghost use Rattle.std.specs.Prelude.{◌≡◌};
ghost use Rattle.hc_grammar.specs.Statement as spec;

use hc_grammar::Kind;
use hc_lex::Mark;

/// Whether a declaration begins here.
#[tactic(auto, unfolding(hc_grammar::specs::Statement::begins_decl, hc_grammar::specs::Expression::begins_type))]
pub(crate) fn begins_decl(kind: Kind) -> bool
    ensures { result ≡ spec.begins_decl kind }
{
    match kind {
        Kind::Static
        | Kind::Ram
        | Kind::Rom
        | Kind::Signal
        | Kind::Chan
        | Kind::Unsigned
        | Kind::Signed
        | Kind::Int => true,
        Kind::Break
        | Kind::Case
        | Kind::Default
        | Kind::Delay
        | Kind::Do
        | Kind::Else
        | Kind::External
        | Kind::For
        | Kind::If
        | Kind::IfSelect
        | Kind::Interface
        | Kind::Macro
        | Kind::Par
        | Kind::Prialt
        | Kind::Select
        | Kind::Seq
        | Kind::Set
        | Kind::Switch
        | Kind::Void
        | Kind::While
        | Kind::Width
        | Kind::With
        | Kind::Main
        | Kind::Clock
        | Kind::Family
        | Kind::Part
        | Kind::Expr
        | Kind::Proc
        | Kind::BusIn
        | Kind::BusOut
        | Kind::Name
        | Kind::Number
        | Kind::Text
        | Kind::Mark(_) => false,
    }
}

/// Whether a statement that begins with a mark begins here.
#[tactic(auto, unfolding(hc_grammar::specs::Statement::begins_stmt, hc_grammar::specs::Kind::is_name))]
fn mark_begins_stmt(mark: Mark) -> bool
    ensures { result ≡ spec.begins_stmt (Kind.Mark mark) }
{
    match mark {
        Mark::Semicolon | Mark::BraceOpen | Mark::Increment | Mark::Decrement => true,
        Mark::BraceClose
        | Mark::ParenOpen
        | Mark::ParenClose
        | Mark::BracketOpen
        | Mark::BracketClose
        | Mark::Comma
        | Mark::Colon
        | Mark::Dot
        | Mark::Question
        | Mark::Assign
        | Mark::Plus
        | Mark::Minus
        | Mark::Star
        | Mark::Slash
        | Mark::Percent
        | Mark::And
        | Mark::Or
        | Mark::Xor
        | Mark::Tilde
        | Mark::Not
        | Mark::Less
        | Mark::Greater
        | Mark::At
        | Mark::ShiftLeft
        | Mark::ShiftRight
        | Mark::LessEqual
        | Mark::GreaterEqual
        | Mark::Equal
        | Mark::NotEqual
        | Mark::AndAnd
        | Mark::OrOr
        | Mark::Take
        | Mark::Drop
        | Mark::AddAssign
        | Mark::SubtractAssign
        | Mark::MultiplyAssign
        | Mark::DivideAssign
        | Mark::RemainderAssign
        | Mark::AndAssign
        | Mark::OrAssign
        | Mark::XorAssign
        | Mark::ShiftLeftAssign
        | Mark::ShiftRightAssign => false,
    }
}

/// Whether a statement begins here.
#[tactic(auto, unfolding(hc_grammar::specs::Statement::begins_stmt, hc_grammar::specs::Kind::is_name))]
pub(crate) fn begins_stmt(kind: Kind) -> bool
    ensures { result ≡ spec.begins_stmt kind }
{
    match kind {
        Kind::Seq
        | Kind::Par
        | Kind::Delay
        | Kind::If
        | Kind::IfSelect
        | Kind::While
        | Kind::Do
        | Kind::For
        | Kind::Switch
        | Kind::Prialt
        | Kind::Main
        | Kind::Clock
        | Kind::Family
        | Kind::Part
        | Kind::Expr
        | Kind::Proc
        | Kind::BusIn
        | Kind::BusOut
        | Kind::Name => true,
        Kind::Mark(mark) => mark_begins_stmt(mark),
        Kind::Break
        | Kind::Case
        | Kind::Chan
        | Kind::Default
        | Kind::Else
        | Kind::External
        | Kind::Int
        | Kind::Interface
        | Kind::Macro
        | Kind::Ram
        | Kind::Rom
        | Kind::Select
        | Kind::Set
        | Kind::Signal
        | Kind::Signed
        | Kind::Static
        | Kind::Unsigned
        | Kind::Void
        | Kind::Width
        | Kind::With
        | Kind::Number
        | Kind::Text => false,
    }
}
