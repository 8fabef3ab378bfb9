//! The RAMs and ROMs that are accessed, each as often as it is accessed, in the order of the text.

ghost use Rattle.std.specs.Prelude.{◌≡◌, ◌++◌, ◌∷◌, [], OnOk};
ghost use Rattle.hc_core.specs.Read.{expression, target, statement, cases};
ghost use Rattle.hc_core.specs.Depends.{accesses, target_accesses, case_accesses};
ghost use Rattle.hc_core.specs.Rules.{accessed, own_accesses};

use hc_core::{Case, Expr, Stmt, Target};
use std::alloc::AllocError;

/// Adds a number to those found before.
pub(crate) fn note(found: &mut Vec<u32>, k: u32) -> Result<(), AllocError>
    ensures { OnOk result (found.new.items ≡ found.old.items ++ k ∷ []) }
{
    match found.push(k) {
        Err(_value) => Err(AllocError),
        Ok(()) => Ok(()),
    }
}

/// Adds the RAMs and ROMs of an expression to those found before.
#[tactic(auto, using(hc_core::proofs::Read::reading, crate::proofs::Adding::adding))]
pub(crate) fn of_expression(found: &mut Vec<u32>, e: &Expr) -> Result<(), AllocError>
    ensures { OnOk result (found.new.items ≡ found.old.items ++ accessed (accesses (expression e.now))) }
{
    match e {
        Expr::Const(_) => Ok(()),
        Expr::Reg(_) => Ok(()),
        Expr::Element(_, index) => of_expression(found, index.get()),
        Expr::Word(k, index) => {
            note(found, *k)?;
            of_expression(found, index.get())
        }
        Expr::Signal(_) => Ok(()),
        Expr::Input(_) => Ok(()),
        Expr::Unary(_, a) => of_expression(found, a.get()),
        Expr::Binary(_, a, b) => {
            of_expression(found, a.get())?;
            of_expression(found, b.get())
        }
        Expr::Slice(a, _, _) => of_expression(found, a.get()),
        Expr::Choice(c, a, b) => {
            of_expression(found, c.get())?;
            of_expression(found, a.get())?;
            of_expression(found, b.get())
        }
    }
}

/// Adds the RAMs of a target, and the RAMs and ROMs of its index, to those found before.
#[tactic(auto, using(hc_core::proofs::Read::reading, crate::proofs::Adding::adding))]
fn of_target(found: &mut Vec<u32>, t: &Target) -> Result<(), AllocError>
    ensures { OnOk result (found.new.items ≡ found.old.items ++ accessed (target_accesses (target t.now))) }
{
    match t {
        Target::Reg(_) => Ok(()),
        Target::Element(_, index) => of_expression(found, index),
        Target::Word(k, index) => {
            note(found, *k)?;
            of_expression(found, index)
        }
        Target::Signal(_) => Ok(()),
    }
}

/// Adds the RAMs and ROMs of the value or target of a case, its arm not counted, to those found before.
#[tactic(auto, using(hc_core::proofs::Read::reading, crate::proofs::Adding::adding))]
fn of_case(found: &mut Vec<u32>, case: &Case) -> Result<(), AllocError>
    ensures { OnOk result (found.new.items ≡ found.old.items ++ accessed (case_accesses (cases (case.now ∷ [])))) }
{
    match case {
        Case::Send { value, .. } => of_expression(found, value),
        Case::Recv { target, .. } => of_target(found, target),
    }
}

/// Adds the RAMs and ROMs of the values and targets of cases, their arms not counted, to those found before.
#[tactic(auto, using(hc_core::proofs::Read::reading, crate::proofs::Adding::adding))]
pub(crate) fn of_cases(found: &mut Vec<u32>, list: &[Case]) -> Result<(), AllocError>
    ensures { OnOk result (found.new.items ≡ found.old.items ++ accessed (case_accesses (cases list.now))) }
{
    let mut rest = list;
    while let [first, behind @ ..] = rest {
        of_case(found, first)?;
        rest = behind;
    }
    Ok(())
}

/// Adds the RAMs and ROMs of one action or one condition to those found before.
#[tactic(auto, using(hc_core::proofs::Read::reading, crate::proofs::Adding::adding))]
pub(crate) fn of_statement(found: &mut Vec<u32>, s: &Stmt) -> Result<(), AllocError>
    ensures { OnOk result (found.new.items ≡ found.old.items ++ accessed (own_accesses (statement s.now))) }
{
    match s {
        Stmt::Skip => Ok(()),
        Stmt::Assign { target, value, .. } => {
            of_target(found, target)?;
            of_expression(found, value)
        }
        Stmt::Delay { .. } => Ok(()),
        Stmt::Send { value, .. } => of_expression(found, value),
        Stmt::Recv { target, .. } => of_target(found, target),
        Stmt::Prialt { cases, rest, .. } => match rest {
            None => of_cases(found, cases.as_slice()),
            Some(_rest) => of_cases(found, cases.as_slice()),
        },
        Stmt::Seq { .. } => Ok(()),
        Stmt::Par { .. } => Ok(()),
        Stmt::If { condition, .. } => of_expression(found, condition),
        Stmt::While { condition, .. } => of_expression(found, condition),
        Stmt::DoWhile { condition, .. } => of_expression(found, condition),
        Stmt::Switch { selector, .. } => of_expression(found, selector),
    }
}
