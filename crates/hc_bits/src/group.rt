ghost use Rattle.std.specs.Prelude.{◌≡◌, ◌<◌, ◌≤◌, ◌+◌, ◌-◌, ◌*◌, ◌^◌, [], ◌∷◌, ◌++◌, Bool, length, map, All, IfOk, false};
ghost use Rattle.hc_net.specs.Made.{Makes};
ghost use Rattle.hc_bits.specs.Carry.{carry_out, carries, last_of};

use crate::carry::carry_out;
use crate::gates::and;
use hc_net::{Builder, NoMemory};

/// Places next to one another, taken as one: where they generate a carry, and where they pass one on.
#[derive(Clone, Copy)]
struct Group {
    generates: u32,
    passes: u32,
}

/// Some places as one, as a balanced tree.
fn grouped(b: &mut Builder, g: &[u32], p: &[u32]) -> Result<Group, NoMemory>
    requires generates { All (λ k. k < length b.old.nodes) g.now }
    requires passes { All (λ k. k < length b.old.nodes) p.now }
    requires some { 1 ≤ length g.now }
    requires width { length p.now ≡ length g.now }
    requires room { length b.old.nodes + 3 * length g.now < 2 ^ 32 }
    ensures { IfOk result (λ z. Makes (3 * (length g.now - 1)) (g.now ++ p.now) b.old b.new (z.generates ∷ z.passes ∷ []) (λ v. (c : Bool) → last_of c (carries c (map v g.now) (map v p.now)) ≡ carry_out (v z.generates) (v z.passes) c)) }
{
    if g.len() == 1 {
        return Ok(Group {
            generates: g[0],
            passes: p[0],
        });
    }
    let half = g.len() / 2;
    let low = grouped(b, &g[..half], &p[..half])?;
    let high = grouped(b, &g[half..], &p[half..])?;
    let generates = carry_out(b, high.generates, high.passes, low.generates)?;
    let passes = and(b, high.passes, low.passes)?;
    Ok(Group { generates, passes })
}

/// The carry out of the highest place, as a balanced tree. No carry comes in at the lowest place.
pub(crate) fn top_carry(b: &mut Builder, g: &[u32], p: &[u32]) -> Result<u32, NoMemory>
    requires generates { All (λ k. k < length b.old.nodes) g.now }
    requires passes { All (λ k. k < length b.old.nodes) p.now }
    requires some { 1 ≤ length g.now }
    requires width { length p.now ≡ length g.now }
    requires room { length b.old.nodes + 3 * length g.now < 2 ^ 32 }
    ensures { IfOk result (λ z. Makes (3 * length g.now) (g.now ++ p.now) b.old b.new (z ∷ []) (λ v. v z ≡ last_of false (carries false (map v g.now) (map v p.now)))) }
{
    if g.len() == 1 {
        return Ok(g[0]);
    }
    let half = g.len() / 2;
    let low = top_carry(b, &g[..half], &p[..half])?;
    let high = grouped(b, &g[half..], &p[half..])?;
    carry_out(b, high.generates, high.passes, low)
}
