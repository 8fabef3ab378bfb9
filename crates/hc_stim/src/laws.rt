ghost use Rattle.std.specs.Prelude.{◌≡◌, ◌⊎◌, ℕ, List};
ghost use Rattle.hc_stim.specs.Text.{AreWidths, StimText, IsBadLine};

/// Bytes are the text of at most one stimulus.
pub fn one_stim()
    ensures { (widths bytes : List ℕ) (stim other : List (List ℕ)) → AreWidths widths →
        StimText bytes widths stim → StimText bytes widths other → stim ≡ other }
{}

/// Bytes have at most one line that is the first to break the rules.
pub fn one_bad_line()
    ensures { (widths bytes : List ℕ) (n other : ℕ) → AreWidths widths →
        IsBadLine bytes widths n → IsBadLine bytes widths other → n ≡ other }
{}

/// Bytes that are the text of a stimulus have no line that breaks the rules.
pub fn never_both()
    ensures { (widths bytes : List ℕ) (stim : List (List ℕ)) (n : ℕ) → AreWidths widths →
        StimText bytes widths stim → IsBadLine bytes widths n → ⊥ }
{}
