//! What breaks S19, S20 and S21 in one statement, what stands within it not counted.

ghost use Rattle.std.specs.Prelude.{◌≡◌, IfOk};
ghost use Rattle.hc_core.specs.Read.{statement, cases};
ghost use Rattle.hc_core.specs.Depends.{case_accesses};
ghost use Rattle.hc_core.specs.Rules.{by_object, least, repeated, channels, accessed};
ghost use Rattle.hc_core.specs.Rules as rules;

use crate::finds::Finds;
use crate::numbers::{least, least_repeated};
use crate::{accesses, channels};
use hc_core::{Case, Stmt};
use std::alloc::{AllocError, Global};

/// S19: a channel that stands in two cases of one `prialt`.
#[derive(Clone, Copy)]
pub(crate) struct TwoCases {
    pub(crate) alloc: Global,
}

impl Finds for TwoCases {
    type Found = Option<u32>;

    ghost finds = { rules.two_cases };

    fn find(&self, s: &Stmt) -> Result<Option<Option<u32>>, AllocError> {
        two_cases(self.alloc, s)
    }
}

/// S20: a RAM or ROM that is accessed twice in one action or one condition.
#[derive(Clone, Copy)]
pub(crate) struct AccessedTwice {
    pub(crate) alloc: Global,
}

impl Finds for AccessedTwice {
    type Found = Option<u32>;

    ghost finds = { rules.accessed_twice };

    fn find(&self, s: &Stmt) -> Result<Option<Option<u32>>, AllocError> {
        accessed_twice(self.alloc, s)
    }
}

/// S21: a RAM or ROM in the value or target of a case.
#[derive(Clone, Copy)]
pub(crate) struct InACase {
    pub(crate) alloc: Global,
}

impl Finds for InACase {
    type Found = Option<u32>;

    ghost finds = { rules.in_a_case };

    fn find(&self, s: &Stmt) -> Result<Option<Option<u32>>, AllocError> {
        in_a_case(self.alloc, s)
    }
}

/// The least channel that stands in two cases, where the statement is a `prialt`.
#[tactic(auto, using(hc_core::proofs::Read::reading))]
fn two_cases(alloc: Global, s: &Stmt) -> Result<Option<Option<u32>>, AllocError>
    ensures { IfOk result (λ found. found ≡ rules.two_cases (statement s.now)) }
{
    match s {
        Stmt::Skip => Ok(None),
        Stmt::Assign { .. } => Ok(None),
        Stmt::Delay { .. } => Ok(None),
        Stmt::Send { .. } => Ok(None),
        Stmt::Recv { .. } => Ok(None),
        Stmt::Prialt { cases, rest, .. } => match rest {
            None => channel_twice(alloc, cases.as_slice()),
            Some(_rest) => channel_twice(alloc, cases.as_slice()),
        },
        Stmt::Seq { .. } => Ok(None),
        Stmt::Par { .. } => Ok(None),
        Stmt::If { .. } => Ok(None),
        Stmt::While { .. } => Ok(None),
        Stmt::DoWhile { .. } => Ok(None),
        Stmt::Switch { .. } => Ok(None),
    }
}

/// The least channel that stands in two of these cases.
fn channel_twice(alloc: Global, list: &[Case]) -> Result<Option<Option<u32>>, AllocError>
    ensures { IfOk result (λ found. found ≡ by_object (least (repeated (channels (cases list.now))))) }
{
    let mut found = Vec::new(alloc);
    match channels::of_one(&mut found, list) {
        Err(e) => {
            drop(found);
            Err(e)
        }
        Ok(()) => twice(alloc, found),
    }
}

/// The least number that stands twice.
fn twice(alloc: Global, numbers: Vec<u32>) -> Result<Option<Option<u32>>, AllocError>
    ensures { IfOk result (λ found. found ≡ by_object (least (repeated numbers.items))) }
{
    let found = least_repeated(alloc, numbers.as_slice());
    drop(numbers);
    match found {
        Err(e) => Err(e),
        Ok(k) => Ok(by_object(k)),
    }
}

/// A breach by an object, where there is one.
pub(crate) fn by_object(object: Option<u32>) -> Option<Option<u32>>
    ensures { result ≡ by_object object }
{
    match object {
        None => None,
        Some(k) => Some(Some(k)),
    }
}

/// The least RAM or ROM that an action or a condition accesses twice.
fn accessed_twice(alloc: Global, s: &Stmt) -> Result<Option<Option<u32>>, AllocError>
    ensures { IfOk result (λ found. found ≡ rules.accessed_twice (statement s.now)) }
{
    let mut found = Vec::new(alloc);
    match accesses::of_statement(&mut found, s) {
        Err(e) => {
            drop(found);
            Err(e)
        }
        Ok(()) => twice(alloc, found),
    }
}

/// The least RAM or ROM in the cases of a statement, where it is a `prialt`.
#[tactic(auto, using(hc_core::proofs::Read::reading))]
fn in_a_case(alloc: Global, s: &Stmt) -> Result<Option<Option<u32>>, AllocError>
    ensures { IfOk result (λ found. found ≡ rules.in_a_case (statement s.now)) }
{
    match s {
        Stmt::Skip => Ok(None),
        Stmt::Assign { .. } => Ok(None),
        Stmt::Delay { .. } => Ok(None),
        Stmt::Send { .. } => Ok(None),
        Stmt::Recv { .. } => Ok(None),
        Stmt::Prialt { cases, rest, .. } => match rest {
            None => accessed_in(alloc, cases.as_slice()),
            Some(_rest) => accessed_in(alloc, cases.as_slice()),
        },
        Stmt::Seq { .. } => Ok(None),
        Stmt::Par { .. } => Ok(None),
        Stmt::If { .. } => Ok(None),
        Stmt::While { .. } => Ok(None),
        Stmt::DoWhile { .. } => Ok(None),
        Stmt::Switch { .. } => Ok(None),
    }
}

/// The least RAM or ROM in the values and targets of these cases.
fn accessed_in(alloc: Global, list: &[Case]) -> Result<Option<Option<u32>>, AllocError>
    ensures { IfOk result (λ found. found ≡ by_object (least (accessed (case_accesses (cases list.now))))) }
{
    let mut found = Vec::new(alloc);
    match accesses::of_cases(&mut found, list) {
        Err(e) => {
            drop(found);
            Err(e)
        }
        Ok(()) => {
            let first = least(found.as_slice());
            drop(found);
            Ok(by_object(first))
        }
    }
}
