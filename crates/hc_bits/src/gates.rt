ghost use Rattle.std.specs.Prelude.{◌≡◌, ◌<◌, ◌+◌, ◌^◌, ◌∷◌, [], ◌&&◌, ◌||◌, not, length, IfOk};
ghost use Rattle.hc_net.specs.Made.{Makes};

use hc_net::{Builder, GateKind, NoMemory};

/// The other bit than that of `x`.
pub(crate) fn not(b: &mut Builder, x: u32) -> Result<u32, NoMemory>
    requires net { x < length b.old.nodes }
    requires room { length b.old.nodes + 1 < 2 ^ 32 }
    ensures { IfOk result (λ z. Makes 1 (x ∷ []) b.old b.new (z ∷ []) (λ v. v z ≡ not (v x))) }
{
    b.gate(GateKind::Not, x, 0)
}

/// 1 where both nets are.
pub(crate) fn and(b: &mut Builder, x: u32, y: u32) -> Result<u32, NoMemory>
    requires left { x < length b.old.nodes }
    requires right { y < length b.old.nodes }
    requires room { length b.old.nodes + 1 < 2 ^ 32 }
    ensures { IfOk result (λ z. Makes 1 (x ∷ y ∷ []) b.old b.new (z ∷ []) (λ v. v z ≡ (v x && v y))) }
{
    b.gate(GateKind::And, x, y)
}

/// 1 where one of the nets is.
pub(crate) fn or(b: &mut Builder, x: u32, y: u32) -> Result<u32, NoMemory>
    requires left { x < length b.old.nodes }
    requires right { y < length b.old.nodes }
    requires room { length b.old.nodes + 1 < 2 ^ 32 }
    ensures { IfOk result (λ z. Makes 1 (x ∷ y ∷ []) b.old b.new (z ∷ []) (λ v. v z ≡ (v x || v y))) }
{
    b.gate(GateKind::Or, x, y)
}
