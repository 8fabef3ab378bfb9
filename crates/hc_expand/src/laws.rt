ghost use Rattle.std.specs.Prelude.{◌≡◌, ◌⊎◌};
ghost use Rattle.hc_tree.specs.declared.item.Tree.{Tree};
ghost use Rattle.hc_tree.specs.declared.refusal.Refusal.{Refusal};
ghost use Rattle.hc_core.specs.declared.object.Core.{Core};
ghost use Rattle.hc_scope.specs.Expands.{Expands, Stops};

/// A tree expands to at most one core.
pub fn one_core()
    ensures { (tree : Tree) (core other : Core) → Expands tree core → Expands tree other → core ≡ other }
{}

/// A tree has at most one refusal.
pub fn one_refusal()
    ensures { (tree : Tree) (refusal other : Refusal) → Stops tree refusal → Stops tree other → refusal ≡ other }
{}

/// A tree that expands to a core has no refusal.
pub fn never_both()
    ensures { (tree : Tree) (core : Core) (refusal : Refusal) → Expands tree core → Stops tree refusal → ⊥ }
{}

/// A tree expands to a core or has a refusal.
pub fn core_or_refusal()
    ensures { (tree : Tree) → ((core : Core) × Expands tree core) ⊎ ((refusal : Refusal) × Stops tree refusal) }
{}
