//! The weight of the objects of a core, and the flip-flops of their bits.

ghost use Rattle.std.specs.Prelude.{◌≡◌, ◌<◌, ◌^◌};
ghost use Rattle.std.specs.List.{sum_by};
ghost use Rattle.hc_core.specs.Typed.{kinds_of};
ghost use Rattle.hc_core.specs.Weight.{kind_weight, kind_flops};
ghost use Rattle.hc_core.specs.Weigh.{CanWeighKind, CanWeighObjects};

use crate::measure::exprs::weighed;
use crate::measure::lookup::width_of;
use crate::measure::stmts::Cost;
use crate::object::{Kind, Object};

/// An object, by its kind.
#[tactic(auto, using(crate::proofs::ObjectBounds::kind_narrow))]
fn object(objects: &[Object], kind: &Kind) -> Cost
    requires { CanWeighKind (kinds_of objects.now) kind.now }
    ensures weight { result.weight ≡ kind_weight (kinds_of objects.now) kind.now }
    ensures flops { result.flops ≡ kind_flops kind.now }
    ensures light { result.weight < 2 ^ 58 }
    ensures few { result.flops < 2 ^ 40 }
{
    let w = width_of(kind) as u64;
    match kind {
        Kind::Reg { .. } => Cost {
            weight: 2 * w + 4,
            flops: w,
        },
        Kind::Array { length, .. } => Cost {
            weight: *length as u64 * (2 * w + 4),
            flops: *length as u64 * w,
        },
        Kind::Ram { length, .. } => Cost {
            weight: 2 * w + 4 + (*length as u64 * w) / 8,
            flops: 0,
        },
        Kind::Rom { length, .. } => Cost {
            weight: 2 * w + 4 + (*length as u64 * w) / 8,
            flops: 0,
        },
        Kind::Signal { .. } => Cost {
            weight: 2 * w + 4,
            flops: 0,
        },
        Kind::Chan { .. } => Cost {
            weight: 2 * w + 8,
            flops: 0,
        },
        Kind::Input { .. } => Cost {
            weight: w,
            flops: 0,
        },
        Kind::Output { value, .. } => Cost {
            weight: w + weighed(objects, value).weight,
            flops: 0,
        },
    }
}

/// All objects.
pub(crate) fn objects(objects: &[Object]) -> Cost
    requires { CanWeighObjects (kinds_of objects.now) (kinds_of objects.now) }
    ensures weight { result.weight ≡ sum_by (kind_weight (kinds_of objects.now)) (kinds_of objects.now) }
    ensures flops { result.flops ≡ sum_by kind_flops (kinds_of objects.now) }
    ensures light { result.weight < 2 ^ 57 }
    ensures few { result.flops < 2 ^ 57 }
{
    let mut total = Cost {
        weight: 0,
        flops: 0,
    };
    let mut rest = objects;
    while let [first, behind @ ..] = rest {
        let next = object(objects, &first.kind);
        total = Cost {
            weight: total.weight + next.weight,
            flops: total.flops + next.flops,
        };
        rest = behind;
    }
    total
}
