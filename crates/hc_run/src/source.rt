//! From the bytes of a source to its core, or to its first refusal.

ghost use Rattle.std.specs.Prelude.{◌≡◌, ◌≤◌, None, length, IfOk, IfErr};
ghost use Rattle.std.specs.List.{All};
ghost use Rattle.hc_expand.specs.Spelled.{IsSpelled};
ghost use Rattle.hc_lex.specs.Lexes.{IsPlain};
ghost use Rattle.hc_core.specs.Sound.{IsSound};
ghost use Rattle.hc_core.specs.Depends.{Cyclic};
ghost use Rattle.hc_core.specs.Weight.{weight_of};
ghost use Rattle.hc_core.specs.Rules.{first_broken};
ghost use Rattle.hc_rules.specs.Weight.{most_weight};
ghost use Rattle.hc_run.specs.Answer.{source_limit, IsSource, Accepted, FirstOfCore, FirstOfTokens, First, IfRefusal};
ghost use Rattle.hc_build.specs.Built as built;
ghost use Rattle.hc_build.specs.Built.{IsBuildable};
ghost use Rattle.hc_run.specs.Answer as answer;
ghost use Rattle.hc_run.specs.Source.{IsTreeOf, FirstOfTree, IsUnbuilt};

use hc_build::unbuilt;
use hc_core::Core;
use hc_cycle::order;
use hc_expand::expand;
use hc_lex::{Tokens, lex, tokens_are_plain};
use hc_parse::parse;
use hc_rules::{check_rules, check_weight};
use hc_tree::{Detail, FrontErr, Place, Refusal, Rule, Tree};
use std::alloc::Global;

/// How many bytes a source may have: 4 MiB.
pub const SOURCE_LIMIT: u64 = 4_194_304;

/// The core of a source, or its first refusal: S1, L1 or L2 of its bytes, then S3, L3 or S2 of its tokens, then the first
/// of S23, S4 to S15, S24, L4 to L7 and L9 of its tree, and then S16, S18 to S22, S17, L8 and `NotBuilt` of its core.
pub fn read_source(alloc: Global, bytes: &[u8]) -> Result<Core, FrontErr>
    requires { length bytes.now ≤ source_limit }
    ensures accepted { IfOk result (Accepted bytes.now) }
    ensures buildable { IfOk result IsBuildable }
    ensures refused { IfErr result (λ e. IfRefusal e (First bytes.now)) }
{
    tokens_are_plain();
    match lex(alloc, bytes) {
        Ok(tokens) => {
            let read = read_tokens(alloc, &tokens);
            drop(tokens);
            read
        }
        Err(e) => Err(e),
    }
}

/// The core of tokens, or their first refusal.
fn read_tokens(alloc: Global, tokens: &Tokens) -> Result<Core, FrontErr>
    requires { All IsPlain tokens.now.tokens }
    ensures source { IfOk result (IsSource tokens.now.tokens) }
    ensures buildable { IfOk result IsBuildable }
    ensures refused { IfErr result (λ e. IfRefusal e (FirstOfTokens tokens.now.tokens tokens.now.end)) }
{
    match parse(alloc, tokens) {
        Ok(tree) => {
            let read = read_tree(alloc, &tree);
            drop(tree);
            read
        }
        Err(e) => Err(e),
    }
}

/// The core of a tree, or its first refusal.
fn read_tree(alloc: Global, tree: &Tree) -> Result<Core, FrontErr>
    requires { IsSpelled tree.now }
    ensures source { IfOk result (IsTreeOf tree.now) }
    ensures buildable { IfOk result IsBuildable }
    ensures refused { IfErr result (λ e. IfRefusal e (FirstOfTree tree.now)) }
{
    match expand(alloc, tree) {
        Ok(core) => checked(alloc, core),
        Err(e) => Err(e),
    }
}

/// A core that can be built, or its first refusal.
fn checked(alloc: Global, core: Core) -> Result<Core, FrontErr>
    requires { IsSound core }
    ensures same { IfOk result (λ found. found ≡ core) }
    ensures rules { IfOk result (λ found. first_broken found ≡ None) }
    ensures acyclic { IfOk result (λ found. Cyclic found → ⊥) }
    ensures buildable { IfOk result IsBuildable }
    ensures refused { IfErr result (λ e. IfRefusal e (FirstOfCore core)) }
{
    match check_core(alloc, &core) {
        Ok(()) => Ok(core),
        Err(e) => {
            drop(core);
            Err(e)
        }
    }
}

/// That a core can be built, or its first refusal: S16, then S18 to S22, then S17, then L8, and then `NotBuilt`.
fn check_core(alloc: Global, core: &Core) -> Result<(), FrontErr>
    requires { IsSound core.now }
    ensures rules { IfOk result (λ _. first_broken core.now ≡ None) }
    ensures acyclic { IfOk result (λ _. Cyclic core.now → ⊥) }
    ensures light { IfOk result (λ _. weight_of core.now ≤ most_weight) }
    ensures built { IfOk result (λ _. built.unbuilt core.now ≡ None) }
    ensures refused { IfErr result (λ e. IfRefusal e (FirstOfCore core.now)) }
{
    match check_rules(alloc, core) {
        Ok(()) => check_values(alloc, core),
        Err(e) => Err(e),
    }
}

/// That a core which breaks no rule before S17 can be built, or its first refusal: S17, then L8, and then `NotBuilt`.
fn check_values(alloc: Global, core: &Core) -> Result<(), FrontErr>
    requires sound { IsSound core.now }
    requires rules { first_broken core.now ≡ None }
    ensures acyclic { IfOk result (λ _. Cyclic core.now → ⊥) }
    ensures light { IfOk result (λ _. weight_of core.now ≤ most_weight) }
    ensures built { IfOk result (λ _. built.unbuilt core.now ≡ None) }
    ensures refused { IfErr result (λ e. IfRefusal e (FirstOfCore core.now)) }
{
    match order(alloc, core) {
        Ok(ranks) => {
            drop(ranks);
            match check_size(core) {
                Ok(()) => Ok(()),
                Err(refusal) => Err(FrontErr::Refused(refusal)),
            }
        }
        Err(e) => Err(e),
    }
}

/// That a core which breaks none of these rules can be built, or its first refusal: L8, and then `NotBuilt`.
fn check_size(core: &Core) -> Result<(), Refusal>
    requires sound { IsSound core.now }
    requires rules { first_broken core.now ≡ None }
    requires acyclic { Cyclic core.now → ⊥ }
    ensures light { IfOk result (λ _. weight_of core.now ≤ most_weight) }
    ensures built { IfOk result (λ _. built.unbuilt core.now ≡ None) }
    ensures refused { IfErr result (FirstOfCore core.now) }
{
    match check_weight(core) {
        Ok(()) => check_built(core),
        Err(refusal) => Err(refusal),
    }
}

/// That a core is of built forms alone, or `NotBuilt` at the first that isn't. The rule is this project's own, and serves
/// only until all forms are built.
fn check_built(core: &Core) -> Result<(), Refusal>
    ensures built { IfOk result (λ _. built.unbuilt core.now ≡ None) }
    ensures refused { IfErr result (IsUnbuilt core.now) }
{
    match unbuilt(core) {
        None => Ok(()),
        Some(place) => Err(not_built(place)),
    }
}

/// The refusal of what isn't built.
fn not_built(place: Place) -> Refusal
    ensures { result ≡ answer.not_built place }
{
    Refusal {
        rule: Rule::NotBuilt,
        place,
        detail: Detail::Nothing,
    }
}
