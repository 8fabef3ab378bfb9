ghost use Rattle.std.specs.Prelude.{◌≡◌, ◌-◌, List, length, ◌⊎◌};
ghost use Rattle.hc_lex.specs.declared.token.Placed.{Placed};
ghost use Rattle.hc_grammar.specs.Table.{Reads, Stops, Spells, IsStop, IsLongest};
ghost use Rattle.hc_grammar.specs.Form.{Form, Gives};
ghost use Rattle.hc_grammar.specs.Grammar.{grammar};

/// At most one tree of a form spells given tokens.
pub fn one_tree()
    ensures { (f : Form) (v w : Gives f) (ts : List Placed) → Spells grammar f v ts → Spells grammar f w ts → v ≡ w }
{}

/// From the front of given tokens a form is read in at most one way.
pub fn one_reading()
    ensures { (f : Form) (v w : Gives f) (ts rest other : List Placed) → Reads grammar f ts v rest → Reads grammar f ts w other → (v ≡ w) × (rest ≡ other) }
{}

/// A form that is read from given tokens isn't refused there.
pub fn read_or_stopped()
    ensures { (f : Form) (v : Gives f) (ts rest at : List Placed) → Reads grammar f ts v rest → Stops grammar f ts at → ⊥ }
{}

/// From given tokens a form is read, or it is refused.
pub fn one_of_both()
    ensures { (f : Form) (ts : List Placed)
        → ((v : Gives f) × (rest : List Placed) × Reads grammar f ts v rest) ⊎ ((at : List Placed) × Stops grammar f ts at) }
{}

/// A form that is refused is refused at one token, or at the end.
pub fn one_stop()
    ensures { (f : Form) (ts at other : List Placed) → Stops grammar f ts at → Stops grammar f ts other → at ≡ other }
{}

/// Where a form is refused is the first token with which the tokens so far begin none, or the end.
pub fn stops_where()
    ensures { (f : Form) (ts at : List Placed) → Stops grammar f ts at → IsStop grammar f ts (length ts - length at) }
{}

/// What is read of a form is the longest one at the front, and no token behind it goes on with it.
pub fn reads_where()
    ensures { (f : Form) (v : Gives f) (ts rest : List Placed) → Reads grammar f ts v rest
        → IsStop grammar f ts (length ts - length rest) × IsLongest grammar f ts v (length ts - length rest) }
{}
