ghost use Rattle.std.specs.Prelude.{◌≡◌, IfOk};
ghost use Rattle.hc_grammar.specs.Answers.{Answers};
ghost use Rattle.hc_grammar.specs.Form as f;
ghost use Rattle.hc_grammar.specs.Kind as spec;
ghost use Rattle.hc_exparse.specs.Last.{AnswersLast};

use hc_grammar::{Cursor, Halt, Kind};
use hc_lex::Token;
use hc_tree::{Ident, Name};
use std::alloc::Global;

/// The bytes of a word or text.
#[tactic(auto, unfolding(hc_grammar::specs::Kind::bytes_of))]
fn bytes_of(alloc: Global, token: &Token) -> Result<Name, Halt>
    ensures { IfOk result (λ n. n ≡ spec.bytes_of token.now) }
{
    let made = match token {
        Token::Word(word) => Name::new(alloc, word.as_bytes()),
        Token::Text(text) => Name::new(alloc, text.as_bytes()),
        Token::Number(_) => Name::new(alloc, b""),
        Token::Mark(_) => Name::new(alloc, b""),
    };
    match made {
        Ok(name) => Ok(name),
        Err(_) => Err(Halt::NoMemory),
    }
}

/// A name, with where it is written.
pub(crate) fn ident(alloc: Global, c: &mut Cursor<'_>) -> Result<Ident, Halt>
    ensures { AnswersLast f.name c.old result c.new }
{
    let kind = match c.kind() {
        Some(kind) => kind,
        None => return Err(Halt::Refused(None)),
    };
    if !kind.is_name() {
        return Err(Halt::Refused(None));
    }
    match c.take() {
        Some(t) => match bytes_of(alloc, &t.token) {
            Ok(name) => Ok(Ident {
                place: t.place,
                name,
            }),
            Err(_) => Err(Halt::NoMemory),
        },
        None => Err(Halt::Refused(None)),
    }
}

/// `name`: a word that isn't reserved, with where it is written.
pub fn name(alloc: Global, c: &mut Cursor<'_>) -> Result<Ident, Halt>
    ensures { Answers f.name c.old result c.new }
{
    ident(alloc, c)
}

/// `text`: the bytes between the quotes.
pub fn text(alloc: Global, c: &mut Cursor<'_>) -> Result<Name, Halt>
    ensures { Answers f.text c.old result c.new }
{
    if !c.is(Kind::Text) {
        return Err(Halt::Refused(None));
    }
    match c.take() {
        Some(t) => match bytes_of(alloc, &t.token) {
            Ok(name) => Ok(name),
            Err(_) => Err(Halt::NoMemory),
        },
        None => Err(Halt::Refused(None)),
    }
}
