ghost use Rattle.std.specs.Prelude.{◌≡◌, ◌<◌, ◌≤◌, ◌+◌, ◌*◌, ◌^◌, ◌++◌, Bool, length, All, IfOk, if◌then◌else◌};
ghost use Rattle.hc_meaning.specs.Value.{holds};
ghost use Rattle.hc_net.specs.Made.{Makes};
ghost use Rattle.hc_bits.specs.Held.{held};

use crate::operand::Operand;
use hc_bits::{mux, truth};
use hc_net::{Builder, Nets, NoMemory};
use std::alloc::Global;

/// `x` where the condition isn't 0, else `y`.
pub(crate) fn choice(
    alloc: Global,
    b: &mut Builder,
    condition: &Nets,
    x: &Operand,
    y: &Nets,
) -> Result<Operand, NoMemory>
    requires condition { All (λ k. k < length b.old.nodes) condition.now }
    requires left { All (λ k. k < length b.old.nodes) x.now.nets }
    requires right { All (λ k. k < length b.old.nodes) y.now }
    requires some { 1 ≤ length condition.now }
    requires width { length y.now ≡ length x.now.nets }
    requires room { length b.old.nodes + (length condition.now + (3 * length x.now.nets + 1)) < 2 ^ 32 }
    ensures width { IfOk result (λ z. length z.nets ≡ length x.now.nets) }
    ensures signed { IfOk result (λ z. z.signed ≡ x.now.signed) }
    ensures circuit { IfOk result (λ z. Makes (length condition.now + (3 * length x.now.nets + 1)) (condition.now ++ (x.now.nets ++ y.now)) b.old b.new z.nets (λ v. (r s : Bool) → held s v z.nets ≡ (if holds (held r v condition.now) then held s v x.now.nets else held s v y.now))) }
{
    let some = truth(alloc, b, condition)?;
    let nets = mux(alloc, b, some.as_slice()[0], &x.nets, y)?;
    Ok(Operand {
        nets,
        signed: x.signed,
    })
}
