ghost use Rattle.std.specs.Prelude.{◌≡◌, ◌<◌, ◌+◌, ◌^◌, ◌++◌, Bool, length, All, IfOk};
ghost use Rattle.hc_num.specs.Bits.{conjunction, disjunction, exclusive_or, complement};
ghost use Rattle.hc_net.specs.Made.{Makes};
ghost use Rattle.hc_bits.specs.Held.{held};

use crate::each::each;
use hc_net::{Builder, GateKind, Nets, NoMemory};
use std::alloc::Global;

/// `x & y`, bit by bit.
pub fn band(alloc: Global, b: &mut Builder, x: &Nets, y: &Nets) -> Result<Nets, NoMemory>
    requires left { All (λ k. k < length b.old.nodes) x.now }
    requires right { All (λ k. k < length b.old.nodes) y.now }
    requires width { length y.now ≡ length x.now }
    requires room { length b.old.nodes + length x.now < 2 ^ 32 }
    ensures width { IfOk result (λ z. length z ≡ length x.now) }
    ensures circuit { IfOk result (λ z. Makes (length x.now) (x.now ++ y.now) b.old b.new z (λ v. (s : Bool) → held s v z ≡ conjunction (held s v x.now) (held s v y.now))) }
{
    each(alloc, b, GateKind::And, x.as_slice(), y.as_slice())
}

/// `x | y`, bit by bit.
pub fn bor(alloc: Global, b: &mut Builder, x: &Nets, y: &Nets) -> Result<Nets, NoMemory>
    requires left { All (λ k. k < length b.old.nodes) x.now }
    requires right { All (λ k. k < length b.old.nodes) y.now }
    requires width { length y.now ≡ length x.now }
    requires room { length b.old.nodes + length x.now < 2 ^ 32 }
    ensures width { IfOk result (λ z. length z ≡ length x.now) }
    ensures circuit { IfOk result (λ z. Makes (length x.now) (x.now ++ y.now) b.old b.new z (λ v. (s : Bool) → held s v z ≡ disjunction (held s v x.now) (held s v y.now))) }
{
    each(alloc, b, GateKind::Or, x.as_slice(), y.as_slice())
}

/// `x ^ y`, bit by bit.
pub fn bxor(alloc: Global, b: &mut Builder, x: &Nets, y: &Nets) -> Result<Nets, NoMemory>
    requires left { All (λ k. k < length b.old.nodes) x.now }
    requires right { All (λ k. k < length b.old.nodes) y.now }
    requires width { length y.now ≡ length x.now }
    requires room { length b.old.nodes + length x.now < 2 ^ 32 }
    ensures width { IfOk result (λ z. length z ≡ length x.now) }
    ensures circuit { IfOk result (λ z. Makes (length x.now) (x.now ++ y.now) b.old b.new z (λ v. (s : Bool) → held s v z ≡ exclusive_or (held s v x.now) (held s v y.now))) }
{
    each(alloc, b, GateKind::Xor, x.as_slice(), y.as_slice())
}

/// `~x`, each bit turned.
pub fn invert(alloc: Global, b: &mut Builder, x: &Nets) -> Result<Nets, NoMemory>
    requires nets { All (λ k. k < length b.old.nodes) x.now }
    requires room { length b.old.nodes + length x.now < 2 ^ 32 }
    ensures width { IfOk result (λ z. length z ≡ length x.now) }
    ensures circuit { IfOk result (λ z. Makes (length x.now) x.now b.old b.new z (λ v. (s : Bool) → held s v z ≡ complement (held s v x.now))) }
{
    let x = x.as_slice();
    each(alloc, b, GateKind::Not, x, x)
}
