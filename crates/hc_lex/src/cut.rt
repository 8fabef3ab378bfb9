ghost use Rattle.std.specs.Prelude.{◌≡◌, ◌≤◌, ◌-◌, length, IfOk, IfErr, IsTrue, true, false, Some, None};
ghost use Rattle.hc_tree.specs.declared.refusal.Rule.TheVariants.{L1};
ghost use Rattle.hc_lex.specs.Lexes.{token_of, is_short, passed, IfRefused};

use crate::front::Kind;
use crate::token::{Placed, Token};
use hc_tree::{Detail, FrontErr, Name, Place, Refusal, Rule};
use std::alloc::Global;

/// The refusal of a rule or limit at a place, with nothing more to say.
pub(crate) fn refused(rule: Rule, place: Place) -> FrontErr
    ensures { IfRefused result (λ r p. (r ≡ rule) × (p ≡ place)) }
{
    FrontErr::Refused(Refusal {
        rule,
        place,
        detail: Detail::Nothing,
    })
}

/// The name with these bytes, or L1 at a place where they are too many.
fn name(alloc: Global, bytes: &[u8], place: Place) -> Result<Name, FrontErr>
    ensures ok { IfOk result (λ n. (n ≡ bytes.now) × (length bytes.now ≤ 255)) }
    ensures err { IfErr result (λ e. IfRefused e (λ r p. (r ≡ L1) × (p ≡ place) × (256 ≤ length bytes.now))) }
{
    if 255 < bytes.len() {
        return Err(refused(Rule::L1, place));
    }
    match Name::new(alloc, bytes) {
        Ok(name) => Ok(name),
        Err(_) => Err(FrontErr::NoMemory),
    }
}

/// The token of a kind with these bytes, or L1 at its place.
fn token(alloc: Global, kind: Kind, bytes: &[u8], place: Place) -> Result<Token, FrontErr>
    requires { kind ≡ Kind.Text → 2 ≤ length bytes.now }
    ensures ok { IfOk result (λ t. (t ≡ token_of kind bytes.now) × (is_short (token_of kind bytes.now) ≡ true)) }
    ensures err { IfErr result (λ e. IfRefused e (λ r p. (r ≡ L1) × (p ≡ place) × (is_short (token_of kind bytes.now) ≡ false))) }
{
    match kind {
        Kind::Word => match name(alloc, bytes, place) {
            Ok(name) => Ok(Token::Word(name)),
            Err(e) => Err(e),
        },
        Kind::Number(value) => Ok(Token::Number(value)),
        Kind::Text => match name(alloc, &bytes[1..bytes.len() - 1], place) {
            Ok(name) => Ok(Token::Text(name)),
            Err(e) => Err(e),
        },
        Kind::Mark(mark) => Ok(Token::Mark(mark)),
    }
}

/// The token of a kind with these bytes where so many tokens stand before it, or the limit that it passes.
pub(crate) fn cut(
    alloc: Global,
    kind: Kind,
    bytes: &[u8],
    place: Place,
    before: usize,
) -> Result<Placed, FrontErr>
    requires { kind ≡ Kind.Text → 2 ≤ length bytes.now }
    ensures ok { IfOk result (λ t. (t ≡ record { token = token_of kind bytes.now; place = place }) × (passed before (token_of kind bytes.now) ≡ None)) }
    ensures err { IfErr result (λ e. IfRefused e (λ r p. (passed before (token_of kind bytes.now) ≡ Some r) × (p ≡ place))) }
{
    match token(alloc, kind, bytes, place) {
        Err(e) => Err(e),
        Ok(token) => {
            if before < 1_000_000 {
                Ok(Placed { token, place })
            } else {
                Err(refused(Rule::L2, place))
            }
        }
    }
}
