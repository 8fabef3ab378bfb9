ghost use Rattle.std.specs.Prelude.{◌≡◌, ◌<◌, ◌+◌, ◌*◌, ◌^◌, ◌++◌, Bool, length, All, IfOk, ◌≤◌, false};
ghost use Rattle.hc_num.specs.Compare.{truth, is_equal};
ghost use Rattle.hc_net.specs.Made.{Makes};
ghost use Rattle.hc_bits.specs.Held.{held};

use crate::any_bit::truth;
use crate::logic::{bxor, invert};
use hc_net::{Builder, Nets, NoMemory};
use std::alloc::Global;

/// One bit, 1 where both numbers are equal.
pub fn equal(alloc: Global, b: &mut Builder, x: &Nets, y: &Nets) -> Result<Nets, NoMemory>
    requires left { All (λ k. k < length b.old.nodes) x.now }
    requires right { All (λ k. k < length b.old.nodes) y.now }
    requires width { length y.now ≡ length x.now }
    requires some { 1 ≤ length x.now }
    requires room { length b.old.nodes + 3 * length x.now < 2 ^ 32 }
    ensures width { IfOk result (λ z. length z ≡ 1) }
    ensures circuit { IfOk result (λ z. Makes (3 * length x.now) (x.now ++ y.now) b.old b.new z (λ v. (s : Bool) → held false v z ≡ truth (is_equal (held s v x.now) (held s v y.now)))) }
{
    let unequal = match bxor(alloc, b, x, y) {
        Ok(unequal) => unequal,
        Err(NoMemory) => return Err(NoMemory),
    };
    match truth(alloc, b, &unequal) {
        Ok(some) => invert(alloc, b, &some),
        Err(NoMemory) => Err(NoMemory),
    }
}
