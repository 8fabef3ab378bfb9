//! The weight of a core, and how many flip-flops its netlist has.

ghost use Rattle.std.specs.Prelude.{◌≡◌, ◌<◌, ◌^◌};
ghost use Rattle.hc_core.specs.Sound.{IsSound};
ghost use Rattle.hc_core.specs.Weight.{weight_of, flops_of};

mod exprs;
mod lookup;
mod objects;
mod operators;
mod stmts;
mod targets;

use crate::measure::objects::objects;
use crate::measure::stmts::part;
use crate::object::Core;

/// The weight of a core, which bounds the gates of its netlist: 100, and what its objects and its statement add. It is this
/// project's own. Each part of a sound core adds less than 2^25, so that the weight is below 2^58.
#[tactic(auto, using(crate::proofs::ObjectBounds::core_objects, crate::proofs::ObjectBounds::core_main, crate::proofs::ObjectBounds::core_light))]
pub fn weight(core: &Core) -> u64
    requires { IsSound core.now }
    ensures weight { result ≡ weight_of core.now }
    ensures light { result < 2 ^ 58 }
{
    100 + objects(core.objects.as_slice()).weight + part(core.objects.as_slice(), &core.main).weight
}

/// How many flip-flops the netlist of a core has at most: 1, the bits of its registers and arrays, and those of its control.
/// It is this project's own.
#[tactic(auto, using(crate::proofs::ObjectBounds::core_objects, crate::proofs::ObjectBounds::core_main, crate::proofs::ObjectBounds::core_few))]
pub fn flops(core: &Core) -> u64
    requires { IsSound core.now }
    ensures flops { result ≡ flops_of core.now }
    ensures few { result < 2 ^ 58 }
{
    1 + objects(core.objects.as_slice()).flops + part(core.objects.as_slice(), &core.main).flops
}
