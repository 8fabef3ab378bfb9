ghost use Rattle.std.specs.Prelude.{◌≡◌, ◌<◌, ◌+◌, ◌*◌, ◌^◌, [], ◌∷◌, ◌++◌, length, All, IfOk, ◌≤◌, true, false};
ghost use Rattle.hc_num.specs.Compare.{truth, is_less};
ghost use Rattle.hc_net.specs.Made.{Makes};
ghost use Rattle.hc_bits.specs.Held.{held};

use crate::carry::passing;
use crate::each::each;
use crate::group::top_carry;
use hc_net::{Builder, GateKind, Nets, NoMemory};
use std::alloc::Global;

/// One bit, 1 where `x` is below `y`, both without a sign: the borrow out of the highest place of `x - y`.
pub fn less_unsigned(alloc: Global, b: &mut Builder, x: &Nets, y: &Nets) -> Result<Nets, NoMemory>
    requires left { All (λ k. k < length b.old.nodes) x.now }
    requires right { All (λ k. k < length b.old.nodes) y.now }
    requires width { length y.now ≡ length x.now }
    requires some { 1 ≤ length x.now }
    requires room { length b.old.nodes + 6 * length x.now < 2 ^ 32 }
    ensures width { IfOk result (λ z. length z ≡ 1) }
    ensures circuit { IfOk result (λ z. Makes (6 * length x.now) (x.now ++ y.now) b.old b.new z (λ v. held false v z ≡ truth (is_less (held false v x.now) (held false v y.now)))) }
{
    let (x, y) = (x.as_slice(), y.as_slice());
    let s = each(alloc, b, GateKind::Xor, x, y)?;
    let g = each(alloc, b, GateKind::And, s.as_slice(), y)?;
    let p = passing(alloc, b, s.as_slice())?;
    let borrow = top_carry(b, g.as_slice(), p.as_slice())?;
    let mut z = Nets::new(alloc);
    z.push(borrow)?;
    Ok(z)
}

/// One bit, 1 where `x` is below `y`, both in two's complement: the order of the numbers without a sign that have their top
/// bits exchanged.
pub fn less_signed(alloc: Global, b: &mut Builder, x: &Nets, y: &Nets) -> Result<Nets, NoMemory>
    requires left { All (λ k. k < length b.old.nodes) x.now }
    requires right { All (λ k. k < length b.old.nodes) y.now }
    requires width { length y.now ≡ length x.now }
    requires some { 1 ≤ length x.now }
    requires room { length b.old.nodes + 6 * length x.now < 2 ^ 32 }
    ensures width { IfOk result (λ z. length z ≡ 1) }
    ensures circuit { IfOk result (λ z. Makes (6 * length x.now) (x.now ++ y.now) b.old b.new z (λ v. held false v z ≡ truth (is_less (held true v x.now) (held true v y.now)))) }
{
    let (x, y) = (x.as_slice(), y.as_slice());
    let top = x.len() - 1;
    let left = with_top(alloc, &x[..top], y[top])?;
    let right = with_top(alloc, &y[..top], x[top])?;
    less_unsigned(alloc, b, &left, &right)
}

/// Nets with another net above them.
fn with_top(alloc: Global, low: &[u32], top: u32) -> Result<Nets, NoMemory>
    ensures { IfOk result (λ z. z ≡ low.now ++ top ∷ []) }
{
    let mut z = Nets::from_slice(alloc, low)?;
    z.push(top)?;
    Ok(z)
}
