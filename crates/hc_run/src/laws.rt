ghost use Rattle.std.specs.Prelude.{◌≡◌, ℕ, List, ◌⊎◌};
ghost use Rattle.hc_core.specs.declared.object.Core.{Core};
ghost use Rattle.hc_tree.specs.declared.refusal.Refusal.{Refusal};
ghost use Rattle.hc_run.specs.Answer.{Accepted, AreAlike, First, HasCore, HasRefusal};

/// Bytes have at most one core.
pub fn one_core()
    ensures { (bytes : List ℕ) (core other : Core) → Accepted bytes core → Accepted bytes other → core ≡ other }
{
    hc_lex::one_reading();
    hc_parse::one_tree();
    hc_expand::one_core();
}

/// All first refusals of the same bytes are equal, but where they name cycles: of these there may be several.
pub fn one_first_refusal()
    ensures { (bytes : List ℕ) (refusal other : Refusal) → First bytes refusal → First bytes other → AreAlike refusal other }
{
    hc_lex::one_reading();
    hc_lex::one_first_breach();
    hc_lex::never_both();
    hc_parse::one_tree();
    hc_parse::one_first_refusal();
    hc_parse::never_both();
    hc_expand::one_core();
    hc_expand::one_refusal();
    hc_expand::never_both();
    hc_cycle::cycles_reach_themselves();
}

/// Bytes have a core or a first refusal.
pub fn core_or_refusal()
    ensures { (bytes : List ℕ) → HasCore bytes ⊎ HasRefusal bytes }
{
    hc_lex::tokens_or_breach();
    hc_parse::tree_or_refusal();
    hc_expand::core_or_refusal();
    hc_cycle::cycle_or_none();
}

/// Bytes that have a core have no first refusal.
pub fn never_both()
    ensures { (bytes : List ℕ) (core : Core) (refusal : Refusal) → Accepted bytes core → First bytes refusal → ⊥ }
{
    hc_lex::one_reading();
    hc_lex::never_both();
    hc_parse::one_tree();
    hc_parse::never_both();
    hc_expand::one_core();
    hc_expand::never_both();
    hc_cycle::cycles_reach_themselves();
}
