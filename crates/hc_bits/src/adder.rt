ghost use Rattle.std.specs.Prelude.{◌≡◌, ◌<◌, ◌+◌, ◌*◌, ◌^◌, ◌++◌, Bool, length, All, IfOk};
ghost use Rattle.hc_num.specs.Arithmetic.{sum, difference, negation};
ghost use Rattle.hc_net.specs.Made.{Makes};
ghost use Rattle.hc_bits.specs.Held.{held};

use crate::carry::{borrows, digits};
use crate::each::each;
use crate::prefix::{prefix_carries, sum_carries};
use hc_net::{Builder, GateKind, Nets, NoMemory};
use std::alloc::Global;

/// `x + y`, modulo 2 to the power of the width.
pub fn add(alloc: Global, b: &mut Builder, x: &Nets, y: &Nets) -> Result<Nets, NoMemory>
    requires left { All (λ k. k < length b.old.nodes) x.now }
    requires right { All (λ k. k < length b.old.nodes) y.now }
    requires width { length y.now ≡ length x.now }
    requires room { length b.old.nodes + 8 * length x.now < 2 ^ 32 }
    ensures width { IfOk result (λ z. length z ≡ length x.now) }
    ensures circuit { IfOk result (λ z. Makes (8 * length x.now) (x.now ++ y.now) b.old b.new z (λ v. (s : Bool) → held s v z ≡ sum (held s v x.now) (held s v y.now))) }
{
    let (x, y) = (x.as_slice(), y.as_slice());
    let s = each(alloc, b, GateKind::Xor, x, y)?;
    if x.len() < 2 {
        return Ok(s);
    }
    let low = &x[..x.len() - 1];
    let c = sum_carries(alloc, b, s.as_slice(), low, y)?;
    digits(alloc, b, s.as_slice(), c.as_slice())
}

/// `x - y`, modulo 2 to the power of the width.
pub fn sub(alloc: Global, b: &mut Builder, x: &Nets, y: &Nets) -> Result<Nets, NoMemory>
    requires left { All (λ k. k < length b.old.nodes) x.now }
    requires right { All (λ k. k < length b.old.nodes) y.now }
    requires width { length y.now ≡ length x.now }
    requires room { length b.old.nodes + 8 * length x.now < 2 ^ 32 }
    ensures width { IfOk result (λ z. length z ≡ length x.now) }
    ensures circuit { IfOk result (λ z. Makes (8 * length x.now) (x.now ++ y.now) b.old b.new z (λ v. (s : Bool) → held s v z ≡ difference (held s v x.now) (held s v y.now))) }
{
    let (x, y) = (x.as_slice(), y.as_slice());
    let s = each(alloc, b, GateKind::Xor, x, y)?;
    if x.len() < 2 {
        return Ok(s);
    }
    let low = &s.as_slice()[..x.len() - 1];
    let c = borrows(alloc, b, low, y)?;
    digits(alloc, b, s.as_slice(), c.as_slice())
}

/// `-x`, modulo 2 to the power of the width: each bit is turned where one below it is 1.
pub fn negate(alloc: Global, b: &mut Builder, x: &Nets) -> Result<Nets, NoMemory>
    requires nets { All (λ k. k < length b.old.nodes) x.now }
    requires room { length b.old.nodes + 8 * length x.now < 2 ^ 32 }
    ensures width { IfOk result (λ z. length z ≡ length x.now) }
    ensures circuit { IfOk result (λ z. Makes (8 * length x.now) x.now b.old b.new z (λ v. (s : Bool) → held s v z ≡ negation (held s v x.now))) }
{
    let x = x.as_slice();
    if x.len() < 2 {
        return Nets::from_slice(alloc, x);
    }
    let c = prefix_carries(alloc, b, &x[..x.len() - 1], &[])?;
    digits(alloc, b, x, c.as_slice())
}
