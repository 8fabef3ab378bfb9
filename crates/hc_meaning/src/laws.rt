ghost use Rattle.std.specs.Prelude.{◌≡◌, ◌<◌, ◌≤◌, ℕ, suc, List, Some, None, All};
ghost use Rattle.std.specs.List.{Contains};
ghost use Rattle.hc_tree.specs.declared.refusal.Node.{Node};
ghost use Rattle.hc_core.specs.Typed.{kinds_of};
ghost use Rattle.hc_core.specs.Sound.{IsSound};
ghost use Rattle.hc_core.specs.Depends.{IsOrder};
ghost use Rattle.hc_core.specs.Program.{Statement};
ghost use Rattle.hc_core.specs.declared.object.Core.{Core};
ghost use Rattle.hc_meaning.specs.Residual.{residual};
ghost use Rattle.hc_meaning.specs.Numbers.{numbers, numbered};
ghost use Rattle.hc_meaning.specs.Value.{World, Instant};
ghost use Rattle.hc_meaning.specs.Control.{Leaf, Condition};
ghost use Rattle.hc_meaning.specs.Clock.{IsClean};
ghost use Rattle.hc_meaning.specs.Twice.{used_twice, all_used_twice};
ghost use Rattle.hc_meaning.specs.Run.{Run, AreInputs, Settled, world_in, conflict, state_after};
ghost use Rattle.hc_meaning.specs.OneInstant.{HasOneInstant, LoopsWait};
ghost use Rattle.hc_meaning.specs.Nets.{AccessesApart, OffersApart, Wired, Identified};

/// A clock is clean, which is that no object is used twice in it, exactly where there is no least such object; and where there
/// is one, it is used twice and none that is has a lesser number.
pub fn clean_clock()
    ensures clean { (w : World) (front : List Leaf) (conditions : List Condition) → used_twice w front conditions ≡ None → IsClean w front conditions }
    ensures none { (w : World) (front : List Leaf) (conditions : List Condition) → IsClean w front conditions → used_twice w front conditions ≡ None }
    ensures least { (w : World) (front : List Leaf) (conditions : List Condition) (k : ℕ) → used_twice w front conditions ≡ Some k
        → Contains (all_used_twice w front conditions) k × All (λ j. k ≤ j) (all_used_twice w front conditions) }
{}

/// The actions, cases and conditions of a statement have the numbers from 0 on, in text order.
pub fn numbers_in_order()
    ensures { (s : Statement) → numbers (residual s 0).0 ≡ numbered 0 (residual s 0).1 }
{}

/// In each state that clean clocks of a sound core reach, exactly one instant agrees with its own front, where no loop may
/// take no clock and the values of a clock have an order.
pub fn one_instant()
    ensures { (core : Core) (ranks : List (Node × ℕ)) → IsSound core → LoopsWait core → IsOrder core ranks → HasOneInstant core }
{}

/// Such a core has one run of n clean clocks on a trace, if it has one: its states and its outputs. A run goes on by each
/// settled clock that is clean.
pub fn one_run()
    ensures states { (core : Core) (ranks : List (Node × ℕ)) → IsSound core → LoopsWait core → IsOrder core ranks
        → (trace : ℕ → List ℕ) (n : ℕ) (a b : Run core trace n) (t : ℕ) → t ≤ n → a.state t ≡ b.state t }
    ensures outputs { (core : Core) (ranks : List (Node × ℕ)) → IsSound core → LoopsWait core → IsOrder core ranks
        → (trace : ℕ → List ℕ) (n : ℕ) (a b : Run core trace n) (t : ℕ) → t < n → a.shown t ≡ b.shown t }
    ensures longer { (core : Core) (trace : ℕ → List ℕ) (n : ℕ) (run : Run core trace n) (settled : Settled (kinds_of core.objects) (trace n) (run.state n))
        → AreInputs (kinds_of core.objects) (trace n) → conflict (world_in settled) (run.state n).rest ≡ None
        → (more : Run core trace (suc n)) × ((t : ℕ) → t ≤ n → more.state t ≡ run.state t) × (more.state (suc n) ≡ state_after (world_in settled) (run.state n).rest) }
{}

/// In a clean clock of such a core, which accesses no RAM or ROM twice in one action or condition and none in a case or an
/// output, each world that is made of nets is the clock's own; and there is one.
pub fn nets_are_the_clock()
    ensures identified { (core : Core) (ranks : List (Node × ℕ)) → IsSound core → LoopsWait core → AccessesApart core → OffersApart core → IsOrder core ranks
        → (trace : ℕ → List ℕ) (n : ℕ) (run : Run core trace n) (inputs : List ℕ) (settled : Settled (kinds_of core.objects) inputs (run.state n))
        → conflict (world_in settled) (run.state n).rest ≡ None → (q : Instant) (word : ℕ → ℕ → ℕ) → Wired (world_in settled) (run.state n).rest q word
        → Identified (world_in settled) (run.state n).rest q word }
    ensures possible { (core : Core) → AccessesApart core → OffersApart core → (trace : ℕ → List ℕ) (n : ℕ) (run : Run core trace n) (inputs : List ℕ)
        → (settled : Settled (kinds_of core.objects) inputs (run.state n)) → conflict (world_in settled) (run.state n).rest ≡ None
        → (word : ℕ → ℕ → ℕ) × Wired (world_in settled) (run.state n).rest settled.instant word }
{}
