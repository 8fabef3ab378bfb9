ghost use Rattle.std.specs.Prelude.{◌≡◌, IfOk, IfErr};
ghost use Rattle.hc_tree.specs.declared.refusal.FrontErr.TheVariants.{NoMemory};
ghost use Rattle.hc_tree.specs.declared.refusal.Refusal.{Refusal};
ghost use Rattle.hc_parse.specs.Checked.{Passes, FirstBreach};
ghost use Rattle.hc_parse.specs.Refused.{IfRefused, IsRefusal};

use crate::left_out::check_words;
use crate::nesting::check_nesting;
use hc_lex::Tokens;
use hc_tree::FrontErr;
use std::alloc::Global;

/// What is checked of tokens before the grammar: S3 where a word stands among them that the language leaves out, then L3
/// where a token is nested more than 200 deep, each at the first such token (this project's own).
pub fn check_tokens(alloc: Global, tokens: &Tokens) -> Result<(), FrontErr>
    ensures passes { IfOk result (λ _. Passes tokens.now.tokens) }
    ensures breach { IfErr result (λ e. IfRefused e (FirstBreach tokens.now.tokens)) }
    ensures accepts { Passes tokens.now.tokens → IfErr result (λ e. e ≡ NoMemory) }
    ensures refuses { (r : Refusal) → FirstBreach tokens.now.tokens r → IsRefusal r result }
{
    checked(alloc, tokens)
}

/// The checks one after the other.
fn checked(alloc: Global, tokens: &Tokens) -> Result<(), FrontErr>
    ensures passes { IfOk result (λ _. Passes tokens.now.tokens) }
    ensures breach { IfErr result (λ e. IfRefused e (FirstBreach tokens.now.tokens)) }
{
    match check_words(alloc, tokens) {
        Ok(()) => check_nesting(alloc, tokens),
        Err(e) => Err(e),
    }
}
