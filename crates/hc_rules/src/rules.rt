ghost use Rattle.std.specs.Prelude.{◌≡◌, ◌<◌, ◌^◌, Some, None, Ok, length, OnOk, IfOk, IfErr};
ghost use Rattle.hc_core.specs.Read.{statement};
ghost use Rattle.hc_core.specs.Sound.{IsSound};
ghost use Rattle.hc_core.specs.FirstPlace as places;
ghost use Rattle.hc_core.specs.Rules as rules;
ghost use Rattle.hc_rules.specs.Rules.{IfRefused, IsBroken};

use crate::cases::{AccessedTwice, InACase, TwoCases};
use crate::labels::RepeatsLabel;
use crate::loops::{Breach, first_endless};
use crate::objects::{first_in_both, first_output};
use crate::walk::first_where;
use hc_core::Core;
use hc_tree::{Detail, FrontErr, Name, Refusal, Rule};
use std::alloc::{AllocError, Global};

/// The first of the rules S16, S18, S19, S20, S21 and S22 that a core breaks, at its first place: objects by number, then
/// statements, an outer statement before those within it. Of several objects at one place the least is named (this project's
/// own).
#[tactic(auto, using(crate::proofs::Firsts::few_objects))]
pub fn check_rules(alloc: Global, core: &Core) -> Result<(), FrontErr>
    requires { IsSound core.now }
    ensures kept { IfOk result (λ _. rules.first_broken core.now ≡ None) }
    ensures refused { IfErr result (λ e. IfRefused e (λ r. rules.first_broken core.now ≡ Some r)) }
{
    first_broken(alloc, core)
}

/// The first rule that a core of few objects breaks.
pub(crate) fn first_broken(alloc: Global, core: &Core) -> Result<(), FrontErr>
    requires { length core.now.objects < 2 ^ 32 }
    ensures kept { IfOk result (λ _. rules.first_broken core.now ≡ None) }
    ensures refused { IfErr result (λ e. IfRefused e (λ r. rules.first_broken core.now ≡ Some r)) }
{
    let main = &core.main;
    kept(alloc, core, Rule::S16, Ok(first_endless(main)))?;
    kept(alloc, core, Rule::S18, first_in_both(alloc, core))?;
    kept(
        alloc,
        core,
        Rule::S19,
        first_where(&TwoCases { alloc }, main),
    )?;
    kept(
        alloc,
        core,
        Rule::S20,
        first_where(&AccessedTwice { alloc }, main),
    )?;
    kept(alloc, core, Rule::S21, first_access(alloc, core))?;
    kept(
        alloc,
        core,
        Rule::S22,
        first_where(&RepeatsLabel { alloc }, main),
    )
}

/// S21: the first RAM or ROM in an output, else the first in a case.
fn first_access(alloc: Global, core: &Core) -> Result<Option<Breach>, AllocError>
    ensures { IfOk result (λ found.
        found ≡ places.first_of (places.first_object rules.in_an_output 0 core.now.objects) (places.first_where rules.in_a_case (statement core.now.main))) }
{
    match first_output(alloc, core.objects.as_slice()) {
        Err(e) => Err(e),
        Ok(Some(found)) => Ok(Some(found)),
        Ok(None) => first_where(&InACase { alloc }, &core.main),
    }
}

/// The refusal of a rule, where it is found broken. Otherwise the rule is kept.
fn kept(
    alloc: Global,
    core: &Core,
    rule: Rule,
    found: Result<Option<Breach>, AllocError>,
) -> Result<(), FrontErr>
    ensures kept { OnOk result (found ≡ Ok None) }
    ensures refused { IfErr result (λ e. IfRefused e (λ r. IsBroken core.now.objects rule found r)) }
{
    match found {
        Err(_e) => Err(FrontErr::NoMemory),
        Ok(None) => Ok(()),
        Ok(Some((place, named))) => match detail_of(alloc, core, named) {
            Err(_e) => Err(FrontErr::NoMemory),
            Ok(detail) => Err(FrontErr::Refused(Refusal {
                rule,
                place,
                detail,
            })),
        },
    }
}

/// The name of the object that a refusal names.
fn detail_of(alloc: Global, core: &Core, named: Option<u32>) -> Result<Detail, AllocError>
    ensures { IfOk result (λ detail. detail ≡ rules.detail_of core.now.objects named) }
{
    match named {
        None => Ok(Detail::Nothing),
        Some(k) => match core.objects.as_slice().get(k as usize) {
            None => Ok(Detail::Nothing),
            Some(object) => match Name::new(alloc, object.name.as_bytes()) {
                Err(_e) => Err(AllocError),
                Ok(name) => Ok(Detail::Name(name)),
            },
        },
    }
}
