ghost use Rattle.std.specs.Prelude.{◌≡◌, ◌≤◌, length, IfOk, IfErr, false};
ghost use Rattle.hc_tree.specs.declared.refusal.FrontErr.TheVariants.{NoMemory};
ghost use Rattle.hc_tree.specs.declared.refusal.Refusal.{Refusal};
ghost use Rattle.hc_tree.specs.declared.refusal.Rule.TheVariants.{S3};
ghost use Rattle.hc_tree.specs.declared.refusal.Detail.TheVariants as detail;
ghost use Rattle.hc_parse.specs.LeftOut as spec;
ghost use Rattle.hc_parse.specs.LeftOut.{HasNoLeftOut, FirstLeftOut, IsLeftOut};
ghost use Rattle.hc_parse.specs.Refused.{IfRefused, IsRefusal};

use crate::among::is_among;
use hc_lex::{Placed, Token, Tokens};
use hc_tree::{Detail, FrontErr, Name, Place, Refusal, Rule};
use std::alloc::Global;

/// Words of Handel-C that this profile leaves out.
const LEFT_OUT: [&[u8]; 37] = [
    b"assert",
    b"auto",
    b"chanin",
    b"chanout",
    b"char",
    b"const",
    b"continue",
    b"double",
    b"enum",
    b"extern",
    b"external_divide",
    b"fifolength",
    b"float",
    b"goto",
    b"inline",
    b"internal",
    b"internal_divide",
    b"let",
    b"long",
    b"mpram",
    b"register",
    b"releasesema",
    b"reset",
    b"return",
    b"sema",
    b"shared",
    b"short",
    b"sizeof",
    b"struct",
    b"try",
    b"trysema",
    b"typedef",
    b"typeof",
    b"undefined",
    b"union",
    b"volatile",
    b"wom",
];

/// Whether a word is one of them.
fn is_left_out(word: &[u8]) -> bool
    ensures { result ≡ spec.is_left_out_word word.now }
{
    is_among(&LEFT_OUT, word)
}

/// S3 at a place, with a name.
fn refused(alloc: Global, name: &[u8], place: Place) -> FrontErr
    requires { length name.now ≤ 255 }
    ensures { IfRefused result (λ r. r ≡ record { rule = S3; place = place; detail = detail.Name name.now }) }
{
    match Name::new(alloc, name) {
        Ok(name) => FrontErr::Refused(Refusal {
            rule: Rule::S3,
            place,
            detail: Detail::Name(name),
        }),
        Err(_) => FrontErr::NoMemory,
    }
}

/// S3 at a token that is a left-out word.
fn check_word(alloc: Global, t: &Placed) -> Result<(), FrontErr>
    ensures kept { IfOk result (λ _. spec.is_left_out t.now.token ≡ false) }
    ensures refused { IfErr result (λ e. IfRefused e (λ r. IsLeftOut t.now r)) }
{
    match &t.token {
        Token::Word(name) => {
            let bytes = name.as_bytes();
            if is_left_out(bytes) {
                Err(refused(alloc, bytes, t.place))
            } else {
                Ok(())
            }
        }
        Token::Number(_) => Ok(()),
        Token::Text(_) => Ok(()),
        Token::Mark(_) => Ok(()),
    }
}

/// The first word among the tokens that the profile leaves out breaks S3, at its place and with its name.
pub(crate) fn check_words(alloc: Global, tokens: &Tokens) -> Result<(), FrontErr>
    ensures kept { IfOk result (λ _. HasNoLeftOut tokens.now.tokens) }
    ensures first { IfErr result (λ e. IfRefused e (FirstLeftOut tokens.now.tokens)) }
    ensures accepts { HasNoLeftOut tokens.now.tokens → IfErr result (λ e. e ≡ NoMemory) }
    ensures refuses { (r : Refusal) → FirstLeftOut tokens.now.tokens r → IsRefusal r result }
{
    for t in tokens.as_slice() {
        match check_word(alloc, t) {
            Ok(()) => {}
            Err(e) => return Err(e),
        }
    }
    Ok(())
}
