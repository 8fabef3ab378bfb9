ghost use Rattle.std.specs.Prelude.{◌≡◌, IfOk, IfErr};
ghost use Rattle.hc_tree.specs.declared.refusal.FrontErr.TheVariants.{NoMemory, Refused};
ghost use Rattle.hc_tree.specs.declared.refusal.Rule.TheVariants.{L3};
ghost use Rattle.hc_tree.specs.declared.refusal.Detail.TheVariants.{Nothing};
ghost use Rattle.hc_tree.specs.declared.refusal.Refusal.{Refusal};
ghost use Rattle.hc_grammar.specs.Nesting.{IsShallow, FirstDeep};
ghost use Rattle.hc_parse.specs.Refused.{IfRefused, IsRefusal};

use crate::levels::Levels;
use crate::role::{Role, role_at};
use hc_lex::Tokens;
use hc_tree::{Detail, FrontErr, Place, Refusal, Rule};
use std::alloc::Global;

/// The most that a token may be nested.
const MOST: usize = 200;

/// L3 at a place.
fn too_deep(place: Place) -> FrontErr
    ensures { result ≡ Refused (record { rule = L3; place = place; detail = Nothing }) }
{
    FrontErr::Refused(Refusal {
        rule: Rule::L3,
        place,
        detail: Detail::Nothing,
    })
}

/// The first token that is nested more than 200 deep breaks L3, at its place.
pub(crate) fn check_nesting(alloc: Global, tokens: &Tokens) -> Result<(), FrontErr>
    ensures kept { IfOk result (λ _. IsShallow tokens.now.tokens) }
    ensures first { IfErr result (λ e. IfRefused e (FirstDeep tokens.now.tokens)) }
    ensures accepts { IsShallow tokens.now.tokens → IfErr result (λ e. e ≡ NoMemory) }
    ensures refuses { (r : Refusal) → FirstDeep tokens.now.tokens r → IsRefusal r result }
{
    let list = tokens.as_slice();
    let mut levels = Levels::new(alloc);
    let mut before = Role::Plain;
    let mut role = role_at(list, 0);
    for (i, t) in list.iter().enumerate() {
        let next = role_at(list, i + 1);
        match levels.take(before, role, next) {
            Ok(()) => {}
            Err(NoMemory) => return Err(FrontErr::NoMemory),
        }
        if MOST < levels.nesting() {
            return Err(too_deep(t.place));
        }
        before = role;
        role = next;
    }
    Ok(())
}
