ghost use Rattle.std.specs.Prelude.{◌≡◌, ◌∷◌, [], None, map, IfOk, OnOk};
ghost use Rattle.hc_core.specs.Read.{statement, statements, arms};
ghost use Rattle.hc_control.specs.Built.{unbuilt_statement, unbuilt_parts, unbuilt_arms};
ghost use Rattle.hc_control.specs.Listing.{IsAction, Gathers, action_of, AreActions, actions_in, actions_in_all, actions_in_arms};

use hc_core::{Arm, Stmt};
use hc_net::NoMemory;
use std::alloc::Global;

/// The actions of a statement of built forms, in text order. The recursion is as deep as statements are nested.
pub(crate) fn actions<'t>(alloc: Global, main: &'t Stmt) -> Result<Vec<&'t Stmt>, NoMemory>
    requires { unbuilt_statement (statement main.now) ≡ None }
    ensures { IfOk result (λ all. AreActions main.now (map (λ s. s.now) all.items)) }
{
    let mut all = Vec::new(alloc);
    gather(&mut all, main)?;
    Ok(all)
}

/// Puts the actions of a statement behind those of a list.
#[cycle(gather)]
fn gather<'t>(all: &mut Vec<&'t Stmt>, s: &'t Stmt) -> Result<(), NoMemory>
    requires { unbuilt_statement (statement s.now) ≡ None }
    ensures { OnOk result (Gathers (actions_in (statement s.now)) (map (λ s. s.now) all.old.items) (map (λ s. s.now) all.new.items)) }
{
    match s {
        Stmt::Skip => Ok(()),
        Stmt::Assign { .. } => add(all, s),
        Stmt::Delay { .. } => add(all, s),
        Stmt::Seq { parts, .. } => gather_all(all, parts.as_slice()),
        Stmt::Par { branches, .. } => gather_all(all, branches.as_slice()),
        Stmt::If { yes, no, .. } => {
            gather(all, yes.get())?;
            gather(all, no.get())
        }
        Stmt::While { body, .. } => gather(all, body.get()),
        Stmt::DoWhile { body, .. } => gather(all, body.get()),
        Stmt::Switch { arms, .. } => gather_arms(all, arms.as_slice()),
        Stmt::Send { .. } => unreachable!(),
        Stmt::Recv { .. } => unreachable!(),
        Stmt::Prialt { .. } => unreachable!(),
    }
}

/// Puts the actions of the statements of a list behind those of another list, statement by statement.
#[cycle(gather)]
fn gather_all<'t>(all: &mut Vec<&'t Stmt>, parts: &'t [Stmt]) -> Result<(), NoMemory>
    requires { unbuilt_parts (statements parts.now) ≡ None }
    ensures { OnOk result (Gathers (actions_in_all (statements parts.now)) (map (λ s. s.now) all.old.items) (map (λ s. s.now) all.new.items)) }
{
    for part in parts {
        gather(all, part)?;
    }
    Ok(())
}

/// Puts the actions of the arms of a `switch` behind those of a list, arm by arm.
#[cycle(gather)]
fn gather_arms<'t>(all: &mut Vec<&'t Stmt>, list: &'t [Arm]) -> Result<(), NoMemory>
    requires { unbuilt_arms (arms list.now) ≡ None }
    ensures { OnOk result (Gathers (actions_in_arms (arms list.now)) (map (λ s. s.now) all.old.items) (map (λ s. s.now) all.new.items)) }
{
    for arm in list {
        gather(all, &arm.body)?;
    }
    Ok(())
}

/// Puts an action behind those of a list.
fn add<'t>(all: &mut Vec<&'t Stmt>, action: &'t Stmt) -> Result<(), NoMemory>
    requires { IsAction action.now }
    ensures { OnOk result (Gathers (action_of action.now ∷ []) (map (λ s. s.now) all.old.items) (map (λ s. s.now) all.new.items)) }
{
    match all.push(action) {
        Ok(()) => Ok(()),
        Err(_) => Err(NoMemory),
    }
}
