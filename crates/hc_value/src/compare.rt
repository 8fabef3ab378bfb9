ghost use Rattle.std.specs.Prelude.{◌≡◌, ◌<◌, ◌≤◌, ◌+◌, ◌*◌, ◌^◌, ◌++◌, Bool, false, not, length, All, IfOk};
ghost use Rattle.hc_num.specs.Compare.{truth as one_bit, is_equal, is_less};
ghost use Rattle.hc_net.specs.Made.{Makes};
ghost use Rattle.hc_bits.specs.Held.{held};

use hc_bits::{equal, invert, less_signed, less_unsigned};
use hc_net::{Builder, Nets, NoMemory};
use std::alloc::Global;

/// One bit, 1 where the numbers differ.
pub(crate) fn unequal(alloc: Global, b: &mut Builder, x: &Nets, y: &Nets) -> Result<Nets, NoMemory>
    requires left { All (λ k. k < length b.old.nodes) x.now }
    requires right { All (λ k. k < length b.old.nodes) y.now }
    requires width { length y.now ≡ length x.now }
    requires some { 1 ≤ length x.now }
    requires room { length b.old.nodes + (3 * length x.now + 1) < 2 ^ 32 }
    ensures width { IfOk result (λ z. length z ≡ 1) }
    ensures circuit { IfOk result (λ z. Makes (3 * length x.now + 1) (x.now ++ y.now) b.old b.new z (λ v. (s : Bool) → held false v z ≡ one_bit (not (is_equal (held s v x.now) (held s v y.now))))) }
{
    let same = equal(alloc, b, x, y)?;
    invert(alloc, b, &same)
}

/// One bit, 1 where `x` is below `y`, by the signed values where the numbers have a sign.
pub(crate) fn less(
    alloc: Global,
    b: &mut Builder,
    signed: bool,
    x: &Nets,
    y: &Nets,
) -> Result<Nets, NoMemory>
    requires left { All (λ k. k < length b.old.nodes) x.now }
    requires right { All (λ k. k < length b.old.nodes) y.now }
    requires width { length y.now ≡ length x.now }
    requires some { 1 ≤ length x.now }
    requires room { length b.old.nodes + 6 * length x.now < 2 ^ 32 }
    ensures width { IfOk result (λ z. length z ≡ 1) }
    ensures circuit { IfOk result (λ z. Makes (6 * length x.now) (x.now ++ y.now) b.old b.new z (λ v. held false v z ≡ one_bit (is_less (held signed v x.now) (held signed v y.now)))) }
{
    if signed {
        less_signed(alloc, b, x, y)
    } else {
        less_unsigned(alloc, b, x, y)
    }
}

/// One bit, 1 where `x` isn't below `y`.
pub(crate) fn at_least(
    alloc: Global,
    b: &mut Builder,
    signed: bool,
    x: &Nets,
    y: &Nets,
) -> Result<Nets, NoMemory>
    requires left { All (λ k. k < length b.old.nodes) x.now }
    requires right { All (λ k. k < length b.old.nodes) y.now }
    requires width { length y.now ≡ length x.now }
    requires some { 1 ≤ length x.now }
    requires room { length b.old.nodes + (6 * length x.now + 1) < 2 ^ 32 }
    ensures width { IfOk result (λ z. length z ≡ 1) }
    ensures circuit { IfOk result (λ z. Makes (6 * length x.now + 1) (x.now ++ y.now) b.old b.new z (λ v. held false v z ≡ one_bit (not (is_less (held signed v x.now) (held signed v y.now))))) }
{
    let below = less(alloc, b, signed, x, y)?;
    invert(alloc, b, &below)
}
