ghost use Rattle.std.specs.Prelude.{◌≡◌, drop};
ghost use Rattle.hc_grammar.specs.Nesting as spec;
ghost use Rattle.hc_parse.specs.Stack.{bracket_of, role_of};

use crate::among::is_among;
use hc_lex::{Mark, Placed, Token};

/// A kind of brackets: `( )`, `[ ]` and `{ }`.
#[derive(Clone, Copy, Debug)]
pub(crate) enum Bracket {
    Round,
    Square,
    Curly,
}

/// What a token is for the nesting. `Step` is a step token wherever it stands, and `Plain` does nothing; `Type` is a
/// word that begins a type.
#[derive(Clone, Copy, Debug)]
pub(crate) enum Role {
    Opens(Bracket),
    Closes(Bracket),
    Comma,
    Semicolon,
    Else,
    Do,
    While,
    Type,
    Step,
    Plain,
}

const STEP_WORDS: [&[u8]; 5] = [b"if", b"ifselect", b"for", b"seq", b"par"];

const TYPE_WORDS: [&[u8]; 3] = [b"unsigned", b"signed", b"int"];

fn mark_role(mark: Mark) -> Role
    ensures { role_of result ≡ spec.mark_role mark }
{
    match mark {
        Mark::ParenOpen => Role::Opens(Bracket::Round),
        Mark::ParenClose => Role::Closes(Bracket::Round),
        Mark::BracketOpen => Role::Opens(Bracket::Square),
        Mark::BracketClose => Role::Closes(Bracket::Square),
        Mark::BraceOpen => Role::Opens(Bracket::Curly),
        Mark::BraceClose => Role::Closes(Bracket::Curly),
        Mark::Semicolon => Role::Semicolon,
        Mark::Comma => Role::Comma,
        Mark::Colon | Mark::Dot | Mark::Increment | Mark::Decrement => Role::Plain,
        Mark::Plus
        | Mark::Minus
        | Mark::Star
        | Mark::Slash
        | Mark::Percent
        | Mark::And
        | Mark::Or
        | Mark::Xor
        | Mark::Tilde
        | Mark::Not
        | Mark::Less
        | Mark::Greater
        | Mark::LessEqual
        | Mark::GreaterEqual
        | Mark::Equal
        | Mark::NotEqual
        | Mark::ShiftLeft
        | Mark::ShiftRight
        | Mark::AndAnd
        | Mark::OrOr
        | Mark::At
        | Mark::Take
        | Mark::Drop
        | Mark::Question
        | Mark::Assign
        | Mark::AddAssign
        | Mark::SubtractAssign
        | Mark::MultiplyAssign
        | Mark::DivideAssign
        | Mark::RemainderAssign
        | Mark::AndAssign
        | Mark::OrAssign
        | Mark::XorAssign
        | Mark::ShiftLeftAssign
        | Mark::ShiftRightAssign => Role::Step,
    }
}

fn is_step_word(word: &[u8]) -> bool
    ensures { result ≡ spec.is_step_word word.now }
{
    is_among(&STEP_WORDS, word)
}

fn is_type_word(word: &[u8]) -> bool
    ensures { result ≡ spec.is_type_word word.now }
{
    is_among(&TYPE_WORDS, word)
}

#[tactic(auto, unfolding(hc_grammar::specs::Nesting::word_role))]
fn word_role(word: &[u8]) -> Role
    ensures { role_of result ≡ spec.word_role word.now }
{
    if is_step_word(word) {
        Role::Step
    } else if is_type_word(word) {
        Role::Type
    } else if word == b"else".as_slice() {
        Role::Else
    } else if word == b"do".as_slice() {
        Role::Do
    } else if word == b"while".as_slice() {
        Role::While
    } else {
        Role::Plain
    }
}

fn token_role(token: &Token) -> Role
    ensures { role_of result ≡ spec.role token.now }
{
    match token {
        Token::Word(name) => word_role(name.as_bytes()),
        Token::Number(_) => Role::Plain,
        Token::Text(_) => Role::Plain,
        Token::Mark(mark) => mark_role(*mark),
    }
}

/// The role of the token at a place in a list; the end does nothing.
pub(crate) fn role_at(tokens: &[Placed], at: usize) -> Role
    ensures { role_of result ≡ spec.role_of_first (drop at tokens.now) }
{
    if at < tokens.len() {
        token_role(&tokens[at].token)
    } else {
        Role::Plain
    }
}

/// Whether a token ends a statement: `;` and `}` do.
pub(crate) fn is_end(role: Role) -> bool
    ensures { result ≡ spec.is_end (role_of role) }
{
    match role {
        Role::Semicolon | Role::Closes(Bracket::Curly) => true,
        _ => false,
    }
}

/// Whether an opening bracket between these tokens is a step token: a `(` directly before a type, and a `[` directly
/// behind a `]`.
pub(crate) fn is_step(before: Role, bracket: Bracket, next: Role) -> bool
    ensures { result ≡ spec.is_step (role_of before) (bracket_of bracket) (role_of next) }
{
    match bracket {
        Bracket::Round => matches!(next, Role::Type),
        Bracket::Square => matches!(before, Role::Closes(Bracket::Square)),
        Bracket::Curly => false,
    }
}
