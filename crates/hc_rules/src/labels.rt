//! S22: a value that stands twice among the labels of one `switch`. The labels are kept in a set, so that the time is linear.

ghost use Rattle.std.specs.Prelude.{◌≡◌, ◌||◌, ℕ, List, ◌++◌, IfOk};
ghost use Rattle.hc_num.specs.Number.{Number};
ghost use Rattle.hc_core.specs.Read.{statement, arms};
ghost use Rattle.hc_core.specs.Rules.{labels, has_twice};
ghost use Rattle.hc_core.specs.Rules as rules;
ghost use Rattle.hc_rules.specs.Labels.{meets};

use crate::finds::Finds;
use hc_core::{Arm, Stmt};
use hc_num::Num;
use indexmap::IndexSet;
use std::alloc::{AllocError, Global};

/// S22: a `switch` that has a value twice among its labels.
#[derive(Clone, Copy)]
pub(crate) struct RepeatsLabel {
    pub(crate) alloc: Global,
}

impl Finds for RepeatsLabel {
    type Found = Option<u32>;

    ghost finds = { rules.repeats_label };

    fn find(&self, s: &Stmt) -> Result<Option<Option<u32>>, AllocError> {
        repeats_label(self.alloc, s)
    }
}

/// A breach without a name, where a `switch` has a value twice among its labels.
#[tactic(auto, using(hc_core::proofs::Read::reading))]
fn repeats_label(alloc: Global, s: &Stmt) -> Result<Option<Option<u32>>, AllocError>
    ensures { IfOk result (λ found. found ≡ rules.repeats_label (statement s.now)) }
{
    match s {
        Stmt::Skip => Ok(None),
        Stmt::Assign { .. } => Ok(None),
        Stmt::Delay { .. } => Ok(None),
        Stmt::Send { .. } => Ok(None),
        Stmt::Recv { .. } => Ok(None),
        Stmt::Prialt { rest, .. } => match rest {
            None => Ok(None),
            Some(_rest) => Ok(None),
        },
        Stmt::Seq { .. } => Ok(None),
        Stmt::Par { .. } => Ok(None),
        Stmt::If { .. } => Ok(None),
        Stmt::While { .. } => Ok(None),
        Stmt::DoWhile { .. } => Ok(None),
        Stmt::Switch { arms, .. } => match repeats(alloc, arms.as_slice()) {
            Err(e) => Err(e),
            Ok(true) => Ok(Some(None)),
            Ok(false) => Ok(None),
        },
    }
}

/// Whether a `switch` with these arms has a value twice among its labels, which have one type in a sound core.
fn repeats(alloc: Global, list: &[Arm]) -> Result<bool, AllocError>
    ensures { IfOk result (λ twice. twice ≡ has_twice (labels (arms list.now))) }
{
    let mut seen = IndexSet::new(alloc);
    let mut rest = list;
    while let [first, behind @ ..] = rest {
        match note(&mut seen, first.values.as_slice()) {
            Err(e) => {
                drop(seen);
                return Err(e);
            }
            Ok(true) => {
                drop(seen);
                return Ok(true);
            }
            Ok(false) => {}
        }
        rest = behind;
    }
    drop(seen);
    Ok(false)
}

/// Adds the bits of these labels to those seen before, up to the first that was seen; whether there is such a label.
fn note(seen: &mut IndexSet<u128>, values: &[Num]) -> Result<bool, AllocError>
    ensures { IfOk result (λ twice. (behind : List Number) →
        meets seen.old.keys (values.now ++ behind) ≡ (twice || meets seen.new.keys behind)) }
{
    let mut rest = values;
    while let [first, behind @ ..] = rest {
        match seen.insert(first.bits()) {
            Err(_value) => return Err(AllocError),
            Ok(true) => {}
            Ok(false) => return Ok(true),
        }
        rest = behind;
    }
    Ok(false)
}
