//! What a source weighs, also where that is over the limit.

ghost use Rattle.std.specs.Prelude.{◌≤◌, length, IfOk, IfErr};
ghost use Rattle.std.specs.List.{All};
ghost use Rattle.hc_expand.specs.Spelled.{IsSpelled};
ghost use Rattle.hc_lex.specs.Lexes.{IsPlain};
ghost use Rattle.hc_run.specs.Answer.{source_limit, First, FirstOfTokens, IfRefusal};
ghost use Rattle.hc_run.specs.Source.{FirstOfTree};
ghost use Rattle.hc_run.specs.Weighed.{Weighs, TokensWeigh, TreeWeighs};

use hc_core::weight;
use hc_expand::expand;
use hc_lex::{Tokens, lex, tokens_are_plain};
use hc_parse::parse;
use hc_tree::{FrontErr, Tree};
use std::alloc::Global;

/// What the core of a source weighs, whatever rules over the core it breaks and however far it is over L8; or the first refusal
/// of a source that has no core.
pub fn weigh_source(alloc: Global, bytes: &[u8]) -> Result<u64, FrontErr>
    requires { length bytes.now ≤ source_limit }
    ensures weighs { IfOk result (Weighs bytes.now) }
    ensures refused { IfErr result (λ e. IfRefusal e (First bytes.now)) }
{
    tokens_are_plain();
    match lex(alloc, bytes) {
        Ok(tokens) => {
            let weighed = weigh_tokens(alloc, &tokens);
            drop(tokens);
            weighed
        }
        Err(e) => Err(e),
    }
}

/// What the core of tokens weighs, or the first refusal of tokens that have none.
fn weigh_tokens(alloc: Global, tokens: &Tokens) -> Result<u64, FrontErr>
    requires { All IsPlain tokens.now.tokens }
    ensures weighs { IfOk result (TokensWeigh tokens.now.tokens) }
    ensures refused { IfErr result (λ e. IfRefusal e (FirstOfTokens tokens.now.tokens tokens.now.end)) }
{
    match parse(alloc, tokens) {
        Ok(tree) => {
            let weighed = weigh_tree(alloc, &tree);
            drop(tree);
            weighed
        }
        Err(e) => Err(e),
    }
}

/// What the core of a tree weighs, or the first refusal of a tree that has none.
fn weigh_tree(alloc: Global, tree: &Tree) -> Result<u64, FrontErr>
    requires { IsSpelled tree.now }
    ensures weighs { IfOk result (TreeWeighs tree.now) }
    ensures refused { IfErr result (λ e. IfRefusal e (FirstOfTree tree.now)) }
{
    match expand(alloc, tree) {
        Ok(core) => {
            let weighed = weight(&core);
            drop(core);
            Ok(weighed)
        }
        Err(e) => Err(e),
    }
}
