ghost use Rattle.std.specs.Prelude.{◌<◌, ◌+◌, ◌^◌, length, IfOk};
ghost use Rattle.hc_core.specs.Read.{expression};
ghost use Rattle.hc_core.specs.Typed.{kinds_of};
ghost use Rattle.hc_core.specs.Weight.{condition_weight};
ghost use Rattle.hc_control.specs.Conditions.{CanTest, MakesCondition};

use hc_bits::truth;
use hc_core::{Core, Expr};
use hc_net::{Builder, NoMemory};
use hc_value::{ObjectNets, value};
use std::alloc::Global;

/// The net that holds where an expression isn't 0. A constant takes no gate.
#[tactic(auto, using(hc_core::proofs::Read::reading))]
pub(crate) fn condition(
    alloc: Global,
    b: &mut Builder,
    core: &Core,
    at: &ObjectNets,
    e: &Expr,
) -> Result<u32, NoMemory>
    requires test { CanTest (kinds_of core.now.objects) at.now (expression e.now) b.old }
    requires room { length b.old.nodes + condition_weight (kinds_of core.now.objects) (expression e.now) < 2 ^ 32 }
    ensures { IfOk result (MakesCondition (kinds_of core.now.objects) at.now (expression e.now) b.old b.new) }
{
    match e {
        Expr::Const(n) => Ok(if n.bits() == 0 { at.zero } else { at.one }),
        _ => {
            let x = value(alloc, b, core, at, e)?;
            let bit = truth(alloc, b, &x)?;
            Ok(bit.as_slice()[0])
        }
    }
}
