ghost use Rattle.std.specs.Prelude.{◌≡◌, ◌<◌, ◌≤◌, ◌+◌, ◌-◌, ◌*◌, ◌%◌, ◌^◌, [], ◌∷◌, ◌++◌, Bool, length, All, IfOk, if◌then◌else◌};
ghost use Rattle.hc_num.specs.Arithmetic as num;
ghost use Rattle.hc_net.specs.Made.{Makes};
ghost use Rattle.hc_bits.specs.Held.{held};
ghost use Rattle.hc_muldiv.specs.Product.{MakesProduct, row_bits};
ghost use Rattle.hc_muldiv.specs.Value.{value};

use crate::joined::joined_nets;
use hc_bits::add;
use hc_net::{Builder, GateKind, Nets, NoMemory};
use std::alloc::Global;

/// `x * y`, modulo 2 to the power of the width.
pub fn times(alloc: Global, b: &mut Builder, x: &Nets, y: &Nets) -> Result<Nets, NoMemory>
    requires left { All (λ k. k < length b.old.nodes) x.now }
    requires right { All (λ k. k < length b.old.nodes) y.now }
    requires width { length y.now ≡ length x.now }
    requires some { 1 ≤ length x.now }
    requires room { length b.old.nodes + (8 * (length x.now * length x.now)) < 2 ^ 32 }
    ensures width { IfOk result (λ z. length z ≡ length x.now) }
    ensures circuit { IfOk result (λ z. Makes (8 * (length x.now * length x.now)) (x.now ++ y.now) b.old b.new z (λ v. (s : Bool) → held s v z ≡ num.product (held s v x.now) (held s v y.now))) }
{
    product(alloc, b, x.as_slice(), y.as_slice())
}

/// `x * y`, as many of its lowest bits as `x` has. Each half of `y` gives a product, of which the high one needs fewer bits.
fn product(alloc: Global, b: &mut Builder, x: &[u32], y: &[u32]) -> Result<Nets, NoMemory>
    requires left { All (λ k. k < length b.old.nodes) x.now }
    requires right { All (λ k. k < length b.old.nodes) y.now }
    requires some { 1 ≤ length y.now }
    requires width { length y.now ≤ length x.now }
    requires room { length b.old.nodes + (9 * row_bits (length x.now) (length y.now) - 8 * length x.now) < 2 ^ 32 }
    ensures width { IfOk result (λ z. length z ≡ length x.now) }
    ensures circuit { IfOk result (MakesProduct x.now y.now b.old b.new) }
{
    if y.len() == 1 {
        return row(alloc, b, x, y[0]);
    }
    let half = y.len() / 2;
    let (y_low, y_high) = y.split_at(half);
    let (x_low, _) = x.split_at(x.len() - half);
    let low = product(alloc, b, x, y_low)?;
    let high = product(alloc, b, x_low, y_high)?;
    add_from(alloc, b, &low, half, &high)
}

/// `x` where `bit` is 1, else 0.
fn row(alloc: Global, b: &mut Builder, x: &[u32], bit: u32) -> Result<Nets, NoMemory>
    requires left { All (λ k. k < length b.old.nodes) x.now }
    requires right { bit < length b.old.nodes }
    requires room { length b.old.nodes + length x.now < 2 ^ 32 }
    ensures width { IfOk result (λ z. length z ≡ length x.now) }
    ensures circuit { IfOk result (λ z. Makes (length x.now) (x.now ++ bit ∷ []) b.old b.new z (λ v. value v z ≡ (if v bit then value v x.now else 0))) }
{
    let mut products = Nets::new(alloc);
    for net in x {
        let product = b.gate(GateKind::And, *net, bit)?;
        products.push(product)?;
    }
    Ok(products)
}

/// `x` with `y` added from bit `from` on, modulo 2 to the power of the width.
fn add_from(
    alloc: Global,
    b: &mut Builder,
    x: &Nets,
    from: usize,
    y: &Nets,
) -> Result<Nets, NoMemory>
    requires left { All (λ k. k < length b.old.nodes) x.now }
    requires right { All (λ k. k < length b.old.nodes) y.now }
    requires width { length x.now ≡ from + length y.now }
    requires room { length b.old.nodes + 8 * length y.now < 2 ^ 32 }
    ensures width { IfOk result (λ z. length z ≡ length x.now) }
    ensures circuit { IfOk result (λ z. Makes (8 * length y.now) (x.now ++ y.now) b.old b.new z (λ v. value v z ≡ (value v x.now + value v y.now * 2 ^ from) % 2 ^ length x.now)) }
{
    let (low, high) = x.as_slice().split_at(from);
    let high = Nets::from_slice(alloc, high)?;
    let sum = add(alloc, b, &high, y)?;
    joined_nets(alloc, low, sum.as_slice())
}
