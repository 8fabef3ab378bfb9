ghost use Rattle.std.specs.Prelude.{◌≡◌, ◌≤◌, ℕ, List, ◌⊎◌};
ghost use Rattle.std.specs.List.{All};
ghost use Rattle.hc_tree.specs.declared.place.Place.{Place};
ghost use Rattle.hc_tree.specs.declared.refusal.Rule.{Rule};
ghost use Rattle.hc_lex.specs.declared.token.Placed.{Placed};
ghost use Rattle.hc_lex.specs.Lexes.{Lexes, Stops, HasTokens, HasBreach, IsPlain};

/// At most one list of tokens is related to given bytes, and one place of the end.
pub fn one_reading()
    ensures { (at : Place) (bytes : List ℕ) (ts us : List Placed) (end other : Place)
        → Lexes at bytes ts end → Lexes at bytes us other → (ts ≡ us) × (end ≡ other) }
{}

/// At most one breach is the first.
pub fn one_first_breach()
    ensures { (before : ℕ) (at : Place) (bytes : List ℕ) (rule other : Rule) (place behind : Place)
        → Stops before at bytes rule place → Stops before at bytes other behind → (rule ≡ other) × (place ≡ behind) }
{}

/// Bytes have tokens within the limits, or a first breach.
pub fn tokens_or_breach()
    ensures { (before : ℕ) (at : Place) (bytes : List ℕ) → before ≤ 1000000 → HasTokens before at bytes ⊎ HasBreach before at bytes }
{}

/// Bytes that have tokens within the limits have no breach.
pub fn never_both()
    ensures { (before : ℕ) (at : Place) (bytes : List ℕ) → HasTokens before at bytes → HasBreach before at bytes → ⊥ }
{}

/// A word has letters, digits and `_`, and a text bytes from 32 to 126 without `"`, `\` and `%` between its quotes.
pub fn tokens_are_plain()
    ensures { (at : Place) (bytes : List ℕ) (ts : List Placed) (end : Place) → Lexes at bytes ts end → All IsPlain ts }
{}
