//! The channels of all send cases and of all receive cases within a statement. Lists are gone over by loops, so that the
//! recursion is as deep as statements are nested.

ghost use Rattle.std.specs.Prelude.{◌≡◌, ◌++◌, ◌∷◌, [], OnOk};
ghost use Rattle.hc_core.specs.Read.{statement, statements, cases, arms};
ghost use Rattle.hc_core.specs.Rules.{send_channels, all_send, cases_send, arms_send, receive_channels, all_receive, cases_receive, arms_receive};

use crate::accesses::note;
use hc_core::{Arm, Case, Stmt};
use std::alloc::AllocError;

/// Adds the channels of the cases within a statement, those of send cases to the first list, and those of receive cases to
/// the second.
#[cycle(offers)]
#[tactic(auto, using(hc_core::proofs::Read::reading, crate::proofs::Adding::adding, crate::proofs::Adding::both))]
pub(crate) fn of_statement(
    sends: &mut Vec<u32>,
    receives: &mut Vec<u32>,
    s: &Stmt,
) -> Result<(), AllocError>
    ensures sends { OnOk result (sends.new.items ≡ sends.old.items ++ send_channels (statement s.now)) }
    ensures receives { OnOk result (receives.new.items ≡ receives.old.items ++ receive_channels (statement s.now)) }
{
    match s {
        Stmt::Skip => Ok(()),
        Stmt::Assign { .. } => Ok(()),
        Stmt::Delay { .. } => Ok(()),
        Stmt::Send { .. } => Ok(()),
        Stmt::Recv { .. } => Ok(()),
        Stmt::Prialt { cases, rest, .. } => match rest {
            None => of_cases(sends, receives, cases.as_slice()),
            Some(rest) => {
                of_cases(sends, receives, cases.as_slice())?;
                of_statement(sends, receives, rest.get())
            }
        },
        Stmt::Seq { parts, .. } => of_all(sends, receives, parts.as_slice()),
        Stmt::Par { branches, .. } => of_all(sends, receives, branches.as_slice()),
        Stmt::If { yes, no, .. } => {
            of_statement(sends, receives, yes.get())?;
            of_statement(sends, receives, no.get())
        }
        Stmt::While { body, .. } => of_statement(sends, receives, body.get()),
        Stmt::DoWhile { body, .. } => of_statement(sends, receives, body.get()),
        Stmt::Switch { arms, .. } => of_arms(sends, receives, arms.as_slice()),
    }
}

/// Adds the channels of the cases within the statements of a list.
#[cycle(offers)]
#[tactic(auto, using(hc_core::proofs::Read::reading))]
fn of_all(sends: &mut Vec<u32>, receives: &mut Vec<u32>, list: &[Stmt]) -> Result<(), AllocError>
    ensures sends { OnOk result (sends.new.items ≡ sends.old.items ++ all_send (statements list.now)) }
    ensures receives { OnOk result (receives.new.items ≡ receives.old.items ++ all_receive (statements list.now)) }
{
    let mut rest = list;
    while let [first, behind @ ..] = rest {
        of_statement(sends, receives, first)?;
        rest = behind;
    }
    Ok(())
}

/// Adds the channel of a case, and those of the cases within its arm.
#[cycle(offers)]
#[tactic(auto, using(hc_core::proofs::Read::reading, crate::proofs::Adding::adding, crate::proofs::Offering::case_more, crate::proofs::Offering::case_same))]
fn of_case(sends: &mut Vec<u32>, receives: &mut Vec<u32>, case: &Case) -> Result<(), AllocError>
    ensures sends { OnOk result (sends.new.items ≡ sends.old.items ++ cases_send (cases (case.now ∷ []))) }
    ensures receives { OnOk result (receives.new.items ≡ receives.old.items ++ cases_receive (cases (case.now ∷ []))) }
{
    match case {
        Case::Send { chan, arm, .. } => {
            note(sends, *chan)?;
            of_statement(sends, receives, arm)
        }
        Case::Recv { chan, arm, .. } => {
            note(receives, *chan)?;
            of_statement(sends, receives, arm)
        }
    }
}

/// Adds the channels of the cases of a `prialt`, and those of the cases within their arms.
#[cycle(offers)]
#[tactic(auto, using(hc_core::proofs::Read::reading))]
fn of_cases(sends: &mut Vec<u32>, receives: &mut Vec<u32>, list: &[Case]) -> Result<(), AllocError>
    ensures sends { OnOk result (sends.new.items ≡ sends.old.items ++ cases_send (cases list.now)) }
    ensures receives { OnOk result (receives.new.items ≡ receives.old.items ++ cases_receive (cases list.now)) }
{
    let mut rest = list;
    while let [first, behind @ ..] = rest {
        of_case(sends, receives, first)?;
        rest = behind;
    }
    Ok(())
}

/// Adds the channels of the cases within the bodies of the arms of a `switch`.
#[cycle(offers)]
#[tactic(auto, using(hc_core::proofs::Read::reading))]
fn of_arms(sends: &mut Vec<u32>, receives: &mut Vec<u32>, list: &[Arm]) -> Result<(), AllocError>
    ensures sends { OnOk result (sends.new.items ≡ sends.old.items ++ arms_send (arms list.now)) }
    ensures receives { OnOk result (receives.new.items ≡ receives.old.items ++ arms_receive (arms list.now)) }
{
    let mut rest = list;
    while let [first, behind @ ..] = rest {
        of_statement(sends, receives, &first.body)?;
        rest = behind;
    }
    Ok(())
}
