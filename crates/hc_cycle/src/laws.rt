ghost use Rattle.std.specs.Prelude.{◌⊎◌};
ghost use Rattle.hc_tree.specs.declared.refusal.Refusal.{Refusal};
ghost use Rattle.hc_core.specs.Depends.{Cyclic};
ghost use Rattle.hc_core.specs.declared.object.Core.{Core};
ghost use Rattle.hc_cycle.specs.Order.{NamesCycle};

/// A refusal names a cycle of a core, or no node of the core reaches itself.
pub fn cycle_or_none()
    ensures { (core : Core) → ((refusal : Refusal) × NamesCycle core refusal) ⊎ (Cyclic core → ⊥) }
{}

/// A node reaches itself where a refusal names a cycle.
pub fn cycles_reach_themselves()
    ensures { (core : Core) (refusal : Refusal) → NamesCycle core refusal → Cyclic core }
{}
