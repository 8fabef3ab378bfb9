ghost use Rattle.std.specs.Prelude.{◌≡◌, ◌⊎◌, List};
ghost use Rattle.hc_tree.specs.declared.place.Place.{Place};
ghost use Rattle.hc_tree.specs.declared.item.Tree.{Tree};
ghost use Rattle.hc_tree.specs.declared.refusal.Refusal.{Refusal};
ghost use Rattle.hc_lex.specs.declared.token.Placed.{Placed};
ghost use Rattle.hc_parse.specs.Parsed.{Parses, FirstRefusal, HasTree, HasFirst};
ghost use Rattle.hc_parse.specs.Checked.{Passes, FirstBreach, HasBreach};

/// Tokens have at most one tree.
pub fn one_tree()
    ensures { (ts : List Placed) (tree other : Tree) → Parses ts tree → Parses ts other → tree ≡ other }
{
    hc_grammar::one_tree();
}

/// Tokens have at most one first refusal.
pub fn one_first_refusal()
    ensures { (ts : List Placed) (end : Place) (refusal other : Refusal) → FirstRefusal ts end refusal → FirstRefusal ts end other → refusal ≡ other }
{}

/// Tokens that have a tree have no first refusal.
pub fn never_both()
    ensures { (ts : List Placed) (end : Place) (tree : Tree) (refusal : Refusal) → Parses ts tree → FirstRefusal ts end refusal → ⊥ }
{}

/// Tokens have a tree or a first refusal.
pub fn tree_or_refusal()
    ensures { (ts : List Placed) (end : Place) → HasTree ts ⊎ HasFirst ts end }
{
    hc_grammar::one_of_both();
    hc_grammar::read_or_stopped();
    hc_grammar::stops_where();
    hc_grammar::reads_where();
}

/// Tokens have at most one first breach of the checks before the grammar.
pub fn one_first_breach()
    ensures { (ts : List Placed) (refusal other : Refusal) → FirstBreach ts refusal → FirstBreach ts other → refusal ≡ other }
{}

/// Tokens pass these checks or break one.
pub fn passes_or_breach()
    ensures { (ts : List Placed) → Passes ts ⊎ HasBreach ts }
{}

/// Tokens that pass break none.
pub fn passes_without_breach()
    ensures { (ts : List Placed) (refusal : Refusal) → Passes ts → FirstBreach ts refusal → ⊥ }
{}
