ghost use Rattle.std.specs.Prelude.{◌≡◌, ℕ, Bool, List};
ghost use Rattle.hc_core.specs.Program.{Expression};
ghost use Rattle.hc_core.specs.Typed.{Typed, width_of, sign_of};
ghost use Rattle.hc_core.specs.declared.object.Kind.{Kind};

/// An expression has at most one type, and it is the one that `width_of` and `sign_of` compute.
pub fn types_are_unique()
    ensures one { (kinds : List Kind) (e : Expression) (w w' : ℕ) (s s' : Bool) → Typed kinds e w s → Typed kinds e w' s'
        → (w ≡ w') × (s ≡ s') }
    ensures width { (kinds : List Kind) (e : Expression) (w : ℕ) (s : Bool) → Typed kinds e w s → width_of kinds e ≡ w }
    ensures sign { (kinds : List Kind) (e : Expression) (w : ℕ) (s : Bool) → Typed kinds e w s → sign_of kinds e ≡ s }
{}
