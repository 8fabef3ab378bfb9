//! What breaks S18 and S21 in objects, which are gone over by number.

ghost use Rattle.std.specs.Prelude.{◌≡◌, ◌<◌, ◌^◌, nat_eq, length, IfOk};
ghost use Rattle.indexmap.specs.IndexSet.{contains};
ghost use Rattle.hc_core.specs.Read.{expression, statement};
ghost use Rattle.hc_core.specs.Depends.{accesses};
ghost use Rattle.hc_core.specs.FirstPlace as places;
ghost use Rattle.hc_core.specs.Rules as rules;
ghost use Rattle.hc_rules.specs.Offered.{offered};

use crate::accesses::of_expression;
use crate::cases::by_object;
use crate::loops::Breach;
use crate::numbers::{least, set_of};
use crate::offers::of_statement;
use hc_core::{Core, Expr, Kind, Object};
use indexmap::IndexSet;
use std::alloc::{AllocError, Global};

/// S18: the first channel that stands in send cases and in receive cases of a core.
pub(crate) fn first_in_both(alloc: Global, core: &Core) -> Result<Option<Breach>, AllocError>
    requires { length core.now.objects < 2 ^ 32 }
    ensures { IfOk result (λ found. found ≡ places.first_object (rules.both_cases (statement core.now.main)) 0 core.now.objects) }
{
    let mut sends = Vec::new(alloc);
    let mut receives = Vec::new(alloc);
    let objects = core.objects.as_slice();
    let added = of_statement(&mut sends, &mut receives, &core.main);
    let found = match added {
        Err(e) => Err(e),
        Ok(()) => first_of_lists(alloc, objects, sends.as_slice(), receives.as_slice()),
    };
    drop(sends);
    drop(receives);
    found
}

/// The first channel that is among the numbers of both lists.
fn first_of_lists(
    alloc: Global,
    objects: &[Object],
    sends: &[u32],
    receives: &[u32],
) -> Result<Option<Breach>, AllocError>
    requires { length objects.now < 2 ^ 32 }
    ensures { IfOk result (λ found.
        found ≡ places.first_object (offered (λ k. rules.is_in k sends.now) (λ k. rules.is_in k receives.now)) 0 objects.now) }
{
    match set_of(alloc, sends) {
        Err(e) => Err(e),
        Ok(sends) => match set_of(alloc, receives) {
            Err(e) => {
                drop(sends);
                Err(e)
            }
            Ok(receives) => {
                let found = first_of_sets(objects, &sends, &receives);
                drop(sends);
                drop(receives);
                Ok(found)
            }
        },
    }
}

/// The first channel that is in both sets.
fn first_of_sets(
    objects: &[Object],
    sends: &IndexSet<u32>,
    receives: &IndexSet<u32>,
) -> Option<Breach>
    requires { length objects.now < 2 ^ 32 }
    ensures { result ≡ places.first_object (offered (contains nat_eq sends.now) (contains nat_eq receives.now)) 0 objects.now }
{
    let mut k: u32 = 0;
    let mut rest = objects;
    while let [first, behind @ ..] = rest {
        match in_both(sends, receives, k, &first.kind) {
            Some(named) => return Some((first.place, named)),
            None => {}
        }
        k += 1;
        rest = behind;
    }
    None
}

/// The channel with this number, if the object is one and is in both sets.
fn in_both(
    sends: &IndexSet<u32>,
    receives: &IndexSet<u32>,
    k: u32,
    kind: &Kind,
) -> Option<Option<u32>>
    ensures { result ≡ offered (contains nat_eq sends.now) (contains nat_eq receives.now) k kind.now }
{
    match kind {
        Kind::Reg { .. } => None,
        Kind::Array { .. } => None,
        Kind::Ram { .. } => None,
        Kind::Rom { .. } => None,
        Kind::Signal { .. } => None,
        Kind::Chan { .. } => {
            if sends.contains(&k) && receives.contains(&k) {
                Some(Some(k))
            } else {
                None
            }
        }
        Kind::Input { .. } => None,
        Kind::Output { .. } => None,
    }
}

/// S21: the first output with a RAM or ROM in its expression.
pub(crate) fn first_output(alloc: Global, objects: &[Object]) -> Result<Option<Breach>, AllocError>
    ensures { IfOk result (λ found. found ≡ places.first_object rules.in_an_output 0 objects.now) }
{
    let mut rest = objects;
    while let [first, behind @ ..] = rest {
        match in_an_output(alloc, &first.kind) {
            Err(e) => return Err(e),
            Ok(Some(named)) => return Ok(Some((first.place, named))),
            Ok(None) => {}
        }
        rest = behind;
    }
    Ok(None)
}

/// The least RAM or ROM in the expression of an object, if it is an output.
fn in_an_output(alloc: Global, kind: &Kind) -> Result<Option<Option<u32>>, AllocError>
    ensures { IfOk result (λ found. found ≡ rules.in_an_output 0 kind.now) }
{
    match kind {
        Kind::Reg { .. } => Ok(None),
        Kind::Array { .. } => Ok(None),
        Kind::Ram { .. } => Ok(None),
        Kind::Rom { .. } => Ok(None),
        Kind::Signal { .. } => Ok(None),
        Kind::Chan { .. } => Ok(None),
        Kind::Input { .. } => Ok(None),
        Kind::Output { value, .. } => accessed_in(alloc, value),
    }
}

/// The least RAM or ROM in an expression.
fn accessed_in(alloc: Global, e: &Expr) -> Result<Option<Option<u32>>, AllocError>
    ensures { IfOk result (λ found. found ≡ rules.by_object (rules.least (rules.accessed (accesses (expression e.now))))) }
{
    let mut found = Vec::new(alloc);
    match of_expression(&mut found, e) {
        Err(e) => {
            drop(found);
            Err(e)
        }
        Ok(()) => {
            let first = least(found.as_slice());
            drop(found);
            Ok(by_object(first))
        }
    }
}
