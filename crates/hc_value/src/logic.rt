ghost use Rattle.std.specs.Prelude.{◌≡◌, ◌<◌, ◌≤◌, ◌+◌, ◌^◌, ◌++◌, ◌&&◌, ◌||◌, Bool, false, length, All, IfOk};
ghost use Rattle.hc_meaning.specs.Value.{holds};
ghost use Rattle.hc_num.specs.Compare.{truth as one_bit};
ghost use Rattle.hc_net.specs.Made.{Makes};
ghost use Rattle.hc_bits.specs.Held.{held};

use hc_bits::{band, bor, truth};
use hc_net::{Builder, Nets, NoMemory};
use std::alloc::Global;

/// One bit, 1 where neither number is 0.
pub(crate) fn both(alloc: Global, b: &mut Builder, x: &Nets, y: &Nets) -> Result<Nets, NoMemory>
    requires left { All (λ k. k < length b.old.nodes) x.now }
    requires right { All (λ k. k < length b.old.nodes) y.now }
    requires some_left { 1 ≤ length x.now }
    requires some_right { 1 ≤ length y.now }
    requires room { length b.old.nodes + (length x.now + length y.now + 1) < 2 ^ 32 }
    ensures width { IfOk result (λ z. length z ≡ 1) }
    ensures circuit { IfOk result (λ z. Makes (length x.now + length y.now + 1) (x.now ++ y.now) b.old b.new z (λ v. (s r : Bool) → held false v z ≡ one_bit (holds (held s v x.now) && holds (held r v y.now)))) }
{
    let first = truth(alloc, b, x)?;
    let second = truth(alloc, b, y)?;
    band(alloc, b, &first, &second)
}

/// One bit, 1 where one of the numbers isn't 0.
pub(crate) fn either(alloc: Global, b: &mut Builder, x: &Nets, y: &Nets) -> Result<Nets, NoMemory>
    requires left { All (λ k. k < length b.old.nodes) x.now }
    requires right { All (λ k. k < length b.old.nodes) y.now }
    requires some_left { 1 ≤ length x.now }
    requires some_right { 1 ≤ length y.now }
    requires room { length b.old.nodes + (length x.now + length y.now + 1) < 2 ^ 32 }
    ensures width { IfOk result (λ z. length z ≡ 1) }
    ensures circuit { IfOk result (λ z. Makes (length x.now + length y.now + 1) (x.now ++ y.now) b.old b.new z (λ v. (s r : Bool) → held false v z ≡ one_bit (holds (held s v x.now) || holds (held r v y.now)))) }
{
    let first = truth(alloc, b, x)?;
    let second = truth(alloc, b, y)?;
    bor(alloc, b, &first, &second)
}
