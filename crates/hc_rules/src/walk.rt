//! The first statement in which something is found, an outer one before those within it. Lists are gone over by loops, so
//! that the recursion is as deep as statements are nested.

ghost use Rattle.std.specs.Prelude.{◌≡◌, [], ◌∷◌, IfOk};
ghost use Rattle.hc_core.specs.Read.{statement, statements, cases, arms};
ghost use Rattle.hc_core.specs.FirstPlace as places;
ghost use Rattle.hc_rules.specs.Walk as walk;

use crate::finds::Finds;
use hc_core::{Arm, Case, Stmt};
use hc_tree::Place;
use std::alloc::AllocError;

/// What is found first in a statement and those within it, with the place of the statement in which it is found. The error is
/// that of the finder. It takes no memory of its own.
#[cycle(walk)]
#[tactic(auto, using(crate::proofs::Places::here_then_within))]
pub fn first_where<F: Finds>(finder: &F, s: &Stmt) -> Result<Option<(Place, F::Found)>, AllocError>
    ensures { IfOk result (λ found. found ≡ places.first_where F.finds (statement s.now)) }
{
    match here(finder, s) {
        Err(e) => Err(e),
        Ok(Some(found)) => Ok(Some(found)),
        Ok(None) => within(finder, s),
    }
}

/// What is found in a statement itself.
fn here<F: Finds>(finder: &F, s: &Stmt) -> Result<Option<(Place, F::Found)>, AllocError>
    ensures { IfOk result (λ found. found ≡ walk.here F.finds (statement s.now)) }
{
    match place_of(s) {
        None => Ok(None),
        Some(place) => match finder.find(s) {
            Err(e) => Err(e),
            Ok(None) => Ok(None),
            Ok(Some(found)) => Ok(Some((place, found))),
        },
    }
}

/// The place of a statement, if it has one.
#[tactic(auto, using(hc_core::proofs::Read::reading))]
fn place_of(s: &Stmt) -> Option<Place>
    ensures { result ≡ walk.place_of (statement s.now) }
{
    match s {
        Stmt::Skip => None,
        Stmt::Assign { place, .. } => Some(*place),
        Stmt::Delay { place } => Some(*place),
        Stmt::Send { place, .. } => Some(*place),
        Stmt::Recv { place, .. } => Some(*place),
        Stmt::Prialt { place, rest, .. } => match rest {
            None => Some(*place),
            Some(_rest) => Some(*place),
        },
        Stmt::Seq { place, .. } => Some(*place),
        Stmt::Par { place, .. } => Some(*place),
        Stmt::If { place, .. } => Some(*place),
        Stmt::While { place, .. } => Some(*place),
        Stmt::DoWhile { place, .. } => Some(*place),
        Stmt::Switch { place, .. } => Some(*place),
    }
}

/// What is found first in the statements within a statement.
#[cycle(walk)]
#[tactic(auto, using(hc_core::proofs::Read::reading))]
fn within<F: Finds>(finder: &F, s: &Stmt) -> Result<Option<(Place, F::Found)>, AllocError>
    ensures { IfOk result (λ found. found ≡ walk.within F.finds (statement s.now)) }
{
    match s {
        Stmt::Skip => Ok(None),
        Stmt::Assign { .. } => Ok(None),
        Stmt::Delay { .. } => Ok(None),
        Stmt::Send { .. } => Ok(None),
        Stmt::Recv { .. } => Ok(None),
        Stmt::Prialt { cases, rest, .. } => match in_cases(finder, cases.as_slice()) {
            Err(e) => Err(e),
            Ok(Some(found)) => Ok(Some(found)),
            Ok(None) => match rest {
                None => Ok(None),
                Some(rest) => first_where(finder, rest.get()),
            },
        },
        Stmt::Seq { parts, .. } => in_all(finder, parts.as_slice()),
        Stmt::Par { branches, .. } => in_all(finder, branches.as_slice()),
        Stmt::If { yes, no, .. } => match first_where(finder, yes.get()) {
            Err(e) => Err(e),
            Ok(Some(found)) => Ok(Some(found)),
            Ok(None) => first_where(finder, no.get()),
        },
        Stmt::While { body, .. } => first_where(finder, body.get()),
        Stmt::DoWhile { body, .. } => first_where(finder, body.get()),
        Stmt::Switch { arms, .. } => in_arms(finder, arms.as_slice()),
    }
}

/// What is found first in the statements of a list.
#[cycle(walk)]
#[tactic(auto, using(hc_core::proofs::Read::reading))]
fn in_all<F: Finds>(finder: &F, list: &[Stmt]) -> Result<Option<(Place, F::Found)>, AllocError>
    ensures { IfOk result (λ found. found ≡ places.first_in F.finds (statements list.now)) }
{
    let mut rest = list;
    while let [first, behind @ ..] = rest {
        match first_where(finder, first) {
            Err(e) => return Err(e),
            Ok(Some(found)) => return Ok(Some(found)),
            Ok(None) => {}
        }
        rest = behind;
    }
    Ok(None)
}

/// What is found first in the arm of a case.
#[cycle(walk)]
#[tactic(auto, using(hc_core::proofs::Read::reading, crate::proofs::Places::nothing_behind))]
fn in_case<F: Finds>(finder: &F, case: &Case) -> Result<Option<(Place, F::Found)>, AllocError>
    ensures { IfOk result (λ found. found ≡ places.first_in_cases F.finds (cases (case.now ∷ []))) }
{
    match case {
        Case::Send { arm, .. } => first_where(finder, arm),
        Case::Recv { arm, .. } => first_where(finder, arm),
    }
}

/// What is found first in the arms of the cases of a `prialt`.
#[cycle(walk)]
#[tactic(auto, using(hc_core::proofs::Read::reading))]
fn in_cases<F: Finds>(finder: &F, list: &[Case]) -> Result<Option<(Place, F::Found)>, AllocError>
    ensures { IfOk result (λ found. found ≡ places.first_in_cases F.finds (cases list.now)) }
{
    let mut rest = list;
    while let [first, behind @ ..] = rest {
        match in_case(finder, first) {
            Err(e) => return Err(e),
            Ok(Some(found)) => return Ok(Some(found)),
            Ok(None) => {}
        }
        rest = behind;
    }
    Ok(None)
}

/// What is found first in the bodies of the arms of a `switch`.
#[cycle(walk)]
#[tactic(auto, using(hc_core::proofs::Read::reading))]
fn in_arms<F: Finds>(finder: &F, list: &[Arm]) -> Result<Option<(Place, F::Found)>, AllocError>
    ensures { IfOk result (λ found. found ≡ places.first_in_arms F.finds (arms list.now)) }
{
    let mut rest = list;
    while let [first, behind @ ..] = rest {
        match first_where(finder, &first.body) {
            Err(e) => return Err(e),
            Ok(Some(found)) => return Ok(Some(found)),
            Ok(None) => {}
        }
        rest = behind;
    }
    Ok(None)
}
