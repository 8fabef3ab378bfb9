//! The weight of a statement and the flip-flops of its control, in one pass. Lists are gone over by loops, so that the
//! recursion is as deep as statements are nested.

ghost use Rattle.std.specs.Prelude.{◌≡◌, ◌<◌, ◌≤◌, ◌^◌, [], ◌∷◌};
ghost use Rattle.hc_core.specs.Read.{statement, statements, cases, arms};
ghost use Rattle.hc_core.specs.Typed.{kinds_of};
ghost use Rattle.hc_core.specs.Weight.{statement_weight, list_weight, cases_weight, arms_weight, statement_flops, list_flops, cases_flops, arms_flops};
ghost use Rattle.hc_core.specs.Weigh.{CanWeighStatement, CanWeighList, CanWeighCases, CanWeighArms};

use crate::measure::exprs::weighed;
use crate::measure::targets::{channel, condition, target};
use crate::object::Object;
use crate::stmt::{Arm, Case, Stmt};

/// What a part of a core adds: its weight, and the flip-flops of its control.
#[derive(Clone, Copy)]
pub(crate) struct Cost {
    pub(crate) weight: u64,
    pub(crate) flops: u64,
}

/// A part of a statement, with bounds of what it adds.
#[cycle(costs)]
#[tactic(auto, using(crate::proofs::StatementOperands::statement_bound, crate::proofs::StatementOperands::flops_bound))]
pub(crate) fn part(objects: &[Object], s: &Stmt) -> Cost
    requires { CanWeighStatement (kinds_of objects.now) (statement s.now) }
    ensures weight { result.weight ≡ statement_weight (kinds_of objects.now) (statement s.now) }
    ensures flops { result.flops ≡ statement_flops (statement s.now) }
    ensures light { result.weight < 2 ^ 57 }
    ensures few { result.flops < 2 ^ 35 }
{
    costs(objects, s)
}

/// A statement, with all that stands within it.
#[cycle(costs)]
#[tactic(auto, using(crate::proofs::Read::reading))]
fn costs(objects: &[Object], s: &Stmt) -> Cost
    requires { CanWeighStatement (kinds_of objects.now) (statement s.now) }
    ensures weight { result.weight ≡ statement_weight (kinds_of objects.now) (statement s.now) }
    ensures flops { result.flops ≡ statement_flops (statement s.now) }
{
    match s {
        Stmt::Skip => Cost {
            weight: 0,
            flops: 0,
        },
        Stmt::Delay { .. } => Cost {
            weight: 40,
            flops: 1,
        },
        Stmt::Assign {
            target: t,
            value,
            ..
        } => Cost {
            weight: 40 + target(objects, t) + weighed(objects, value).weight,
            flops: 1,
        },
        Stmt::Send { chan, value, .. } => Cost {
            weight: 40 + channel(objects, *chan) + weighed(objects, value).weight,
            flops: 2,
        },
        Stmt::Recv {
            chan,
            target: t,
            ..
        } => Cost {
            weight: 40 + channel(objects, *chan) + target(objects, t),
            flops: 2,
        },
        Stmt::Prialt { cases, rest, .. } => {
            let all = case_list(objects, cases.as_slice());
            match rest {
                None => Cost {
                    weight: 40 + all.weight,
                    flops: 1 + all.flops,
                },
                Some(rest) => {
                    let rest = part(objects, rest.get());
                    Cost {
                        weight: 40 + all.weight + rest.weight,
                        flops: 1 + all.flops + rest.flops,
                    }
                }
            }
        }
        Stmt::Seq { parts, .. } => {
            let all = list(objects, parts.as_slice(), 8, 0);
            Cost {
                weight: 40 + all.weight,
                flops: all.flops,
            }
        }
        Stmt::Par { branches, .. } => {
            let all = list(objects, branches.as_slice(), 16, 1);
            Cost {
                weight: 40 + all.weight,
                flops: all.flops,
            }
        }
        Stmt::If {
            condition: c,
            yes,
            no,
            ..
        } => {
            let c = condition(objects, c);
            let yes = part(objects, yes.get());
            let no = part(objects, no.get());
            Cost {
                weight: 40 + c + yes.weight + no.weight,
                flops: yes.flops + no.flops,
            }
        }
        Stmt::While {
            condition: c,
            body,
            ..
        } => {
            let c = condition(objects, c);
            let body = part(objects, body.get());
            Cost {
                weight: 40 + c + body.weight,
                flops: body.flops,
            }
        }
        Stmt::DoWhile {
            body,
            condition: c,
            ..
        } => {
            let c = condition(objects, c);
            let body = part(objects, body.get());
            Cost {
                weight: 40 + c + body.weight,
                flops: body.flops,
            }
        }
        Stmt::Switch { selector, arms, .. } => {
            let e = weighed(objects, selector);
            let all = arm_list(objects, arms.as_slice(), 2 * e.width as u64 + 8);
            Cost {
                weight: 40 + e.weight + all.weight,
                flops: all.flops,
            }
        }
    }
}

/// The statements of a list, with so much weight and so many flip-flops for each of them.
#[cycle(costs)]
#[tactic(auto, using(crate::proofs::Read::reading))]
fn list(objects: &[Object], parts: &[Stmt], weight: u64, flops: u64) -> Cost
    requires can { CanWeighList (kinds_of objects.now) (statements parts.now) }
    requires light { weight ≤ 64 }
    requires few { flops ≤ 1 }
    ensures weight { result.weight ≡ list_weight (kinds_of objects.now) weight (statements parts.now) }
    ensures flops { result.flops ≡ list_flops flops (statements parts.now) }
    ensures light { result.weight < 2 ^ 57 }
    ensures few { result.flops < 2 ^ 35 }
{
    let mut total = Cost {
        weight: 0,
        flops: 0,
    };
    let mut rest = parts;
    while let [first, behind @ ..] = rest {
        let next = part(objects, first);
        total = Cost {
            weight: total.weight + (weight + next.weight),
            flops: total.flops + (flops + next.flops),
        };
        rest = behind;
    }
    total
}

/// A case of a `prialt`, with its arm.
#[cycle(costs)]
#[tactic(auto, using(crate::proofs::Read::reading))]
fn case(objects: &[Object], case: &Case) -> Cost
    requires { CanWeighCases (kinds_of objects.now) (cases (case.now ∷ [])) }
    ensures weight { result.weight ≡ cases_weight (kinds_of objects.now) (cases (case.now ∷ [])) }
    ensures flops { result.flops ≡ cases_flops (cases (case.now ∷ [])) }
    ensures light { result.weight < 2 ^ 60 }
    ensures few { result.flops < 2 ^ 36 }
{
    match case {
        Case::Send { chan, value, arm } => {
            let arm = part(objects, arm);
            Cost {
                weight: 40 + channel(objects, *chan) + weighed(objects, value).weight + arm.weight,
                flops: 1 + arm.flops,
            }
        }
        Case::Recv {
            chan,
            target: t,
            arm,
        } => {
            let arm = part(objects, arm);
            Cost {
                weight: 40 + channel(objects, *chan) + target(objects, t) + arm.weight,
                flops: 1 + arm.flops,
            }
        }
    }
}

/// The cases of a `prialt`.
#[cycle(costs)]
#[tactic(auto, using(crate::proofs::Read::reading))]
fn case_list(objects: &[Object], all: &[Case]) -> Cost
    requires { CanWeighCases (kinds_of objects.now) (cases all.now) }
    ensures weight { result.weight ≡ cases_weight (kinds_of objects.now) (cases all.now) }
    ensures flops { result.flops ≡ cases_flops (cases all.now) }
    ensures light { result.weight < 2 ^ 57 }
    ensures few { result.flops < 2 ^ 35 }
{
    let mut total = Cost {
        weight: 0,
        flops: 0,
    };
    let mut rest = all;
    while let [first, behind @ ..] = rest {
        let next = case(objects, first);
        total = Cost {
            weight: total.weight + next.weight,
            flops: total.flops + next.flops,
        };
        rest = behind;
    }
    total
}

/// The arms of a `switch`, with so much weight for each of their label values.
#[cycle(costs)]
#[tactic(auto, using(crate::proofs::Read::reading))]
fn arm_list(objects: &[Object], all: &[Arm], each: u64) -> Cost
    requires can { CanWeighArms (kinds_of objects.now) (arms all.now) }
    requires light { each ≤ 264 }
    ensures weight { result.weight ≡ arms_weight (kinds_of objects.now) each (arms all.now) }
    ensures flops { result.flops ≡ arms_flops (arms all.now) }
    ensures light { result.weight < 2 ^ 57 }
    ensures few { result.flops < 2 ^ 35 }
{
    let mut total = Cost {
        weight: 0,
        flops: 0,
    };
    let mut rest = all;
    while let [arm, behind @ ..] = rest {
        let next = part(objects, &arm.body);
        let labels = each * arm.values.len() as u64;
        total = Cost {
            weight: total.weight + (labels + 16 + next.weight),
            flops: total.flops + next.flops,
        };
        rest = behind;
    }
    total
}
