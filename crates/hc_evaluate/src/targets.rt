ghost use Rattle.std.specs.Prelude.{◌≡◌, ℕ, IfOk, Some, slice_get};
ghost use Rattle.hc_core.specs.Sound.{IsWidth};
ghost use Rattle.hc_core.specs.Typed.{kinds_of};
ghost use Rattle.hc_scope.specs.Statement as spec;
ghost use Rattle.hc_scope.specs.Reading.{given_of, named_of, meaning_of, scope_of, Answers};
ghost use Rattle.hc_scope.specs.Sound.{AreSound};
ghost use Rattle.hc_evaluate.specs.Targets.{own_read, destination_read, typed_read, IsDestination};
ghost use Rattle.hc_scope.specs.declared.state.State as the_state;

use hc_core::Kind;
use hc_scope::{Meaning, Named, Scope, State, ValueType, broken_name, named};
use hc_tree::{ExprTree, FrontErr, Ident, Rule, Target};
use std::alloc::Global;

/// An index with its scope.
#[derive(Clone, Copy)]
pub(crate) struct IndexAt<'s, 't> {
    pub(crate) index: &'t ExprTree,
    pub(crate) scope: &'s Scope<'s, 't>,
}

/// What is written: a register or signal, or an element or word by an index.
#[derive(Clone, Copy)]
pub(crate) enum Destination<'s, 't> {
    Register(u32),
    Signal(u32),
    Element(u32, IndexAt<'s, 't>),
    Word(u32, IndexAt<'s, 't>),
}

/// What is written, with its name and the type of its values.
#[derive(Clone, Copy)]
pub(crate) struct TypedDestination<'s, 't> {
    pub(crate) name: &'t Ident,
    pub(crate) to: Destination<'s, 't>,
    pub(crate) of: ValueType,
}

/// What a target stands for: S4 where its name isn't declared, and S6 where the name can't be written so.
#[tactic(auto, unfolding(hc_scope::specs::Statement::destination))]
pub(crate) fn find_destination<'s, 't>(
    alloc: Global,
    state: &State,
    scope: &'s Scope<'s, 't>,
    target: &'t Target,
) -> Result<TypedDestination<'s, 't>, FrontErr>
    requires sound { AreSound (kinds_of state.now.objects) }
    ensures answers { Answers typed_read (spec.destination (scope_of scope.now) target.now state.now) result state.now }
    ensures typed { IfOk result (λ d. IsDestination (kinds_of state.now.objects) (destination_read d.to) d.of.width d.of.signed) }
    ensures width { IfOk result (λ d. IsWidth d.of.width) }
{
    let name = named(scope, &target.name);
    let own = own_index(scope, &target.index);
    destination_named(alloc, state, &name, own)
}

// The index that is written.
fn own_index<'s, 't>(
    scope: &'s Scope<'s, 't>,
    index: &'t Option<ExprTree>,
) -> Option<IndexAt<'s, 't>>
    ensures { own_read result ≡ spec.own_index (scope_of scope.now) index.now }
{
    match index {
        Some(index) => Some(IndexAt { index, scope }),
        None => None,
    }
}

// What a name and an index stand for.
fn destination_named<'s, 't>(
    alloc: Global,
    state: &State,
    name: &Named<'s, 't>,
    own: Option<IndexAt<'s, 't>>,
) -> Result<TypedDestination<'s, 't>, FrontErr>
    requires sound { AreSound (kinds_of state.now.objects) }
    ensures answers { Answers typed_read (spec.destination_named (own_read own.entry) (named_of name.now) state.now) result state.now }
    ensures typed { IfOk result (λ d. IsDestination (kinds_of state.now.objects) (destination_read d.to) d.of.width d.of.signed) }
    ensures width { IfOk result (λ d. IsWidth d.of.width) }
{
    match name {
        Named::Missing(x) => Err(broken_name(alloc, Rule::S4, x)),
        Named::NoName(x) => Err(broken_name(alloc, Rule::S6, x)),
        Named::Known(x, meaning, given) => destination_index(alloc, state, x, meaning, given, own),
    }
}

// The index that is written, or that an argument has; two can't stand.
fn destination_index<'s, 't>(
    alloc: Global,
    state: &State,
    x: &'t Ident,
    meaning: &Meaning<'s, 't>,
    given: &Option<(&'t ExprTree, &'s Scope<'s, 't>)>,
    own: Option<IndexAt<'s, 't>>,
) -> Result<TypedDestination<'s, 't>, FrontErr>
    requires sound { AreSound (kinds_of state.now.objects) }
    ensures answers { Answers typed_read (spec.destination_index x.now (meaning_of meaning.now) (given_of given.now) (own_read own.entry) state.now) result state.now }
    ensures typed { IfOk result (λ d. IsDestination (kinds_of state.now.objects) (destination_read d.to) d.of.width d.of.signed) }
    ensures width { IfOk result (λ d. IsWidth d.of.width) }
{
    match given {
        Some((index, scope)) => match own {
            Some(_) => Err(broken_name(alloc, Rule::S6, x)),
            None => destination_by(alloc, state, x, Some(IndexAt { index, scope }), meaning),
        },
        None => destination_by(alloc, state, x, own, meaning),
    }
}

// What a name of a meaning stands for, with or without an index.
fn destination_by<'s, 't>(
    alloc: Global,
    state: &State,
    x: &'t Ident,
    own: Option<IndexAt<'s, 't>>,
    meaning: &Meaning<'s, 't>,
) -> Result<TypedDestination<'s, 't>, FrontErr>
    requires sound { AreSound (kinds_of state.now.objects) }
    ensures answers { Answers typed_read (spec.destination_by x.now (own_read own.entry) (meaning_of meaning.now) state.now) result state.now }
    ensures typed { IfOk result (λ d. IsDestination (kinds_of state.now.objects) (destination_read d.to) d.of.width d.of.signed) }
    ensures width { IfOk result (λ d. IsWidth d.of.width) }
{
    match meaning {
        Meaning::Object(k) => destination_object(alloc, state, x, *k, own),
        Meaning::Interface(_, _) => Err(broken_name(alloc, Rule::S6, x)),
        Meaning::Number(_) => Err(broken_name(alloc, Rule::S6, x)),
        Meaning::Expression(_, _) => Err(broken_name(alloc, Rule::S6, x)),
        Meaning::Procedure(_, _) => Err(broken_name(alloc, Rule::S6, x)),
        Meaning::Argument(_, _) => Err(broken_name(alloc, Rule::S6, x)),
    }
}

// What an object stands for, with or without an index.
fn destination_object<'s, 't>(
    alloc: Global,
    state: &State,
    x: &'t Ident,
    k: u32,
    own: Option<IndexAt<'s, 't>>,
) -> Result<TypedDestination<'s, 't>, FrontErr>
    requires sound { AreSound (kinds_of state.now.objects) }
    ensures answers { Answers typed_read (spec.destination_of x.now k (own_read own.entry) (slice_get (kinds_of state.now.objects) k) state.now) result state.now }
    ensures typed { IfOk result (λ d. IsDestination (kinds_of state.now.objects) (destination_read d.to) d.of.width d.of.signed) }
    ensures width { IfOk result (λ d. IsWidth d.of.width) }
{
    match state.objects.get(k as usize) {
        Some(object) => destination_kind(alloc, x, k, own, &object.kind),
        None => Err(broken_name(alloc, Rule::S6, x)),
    }
}

// What an object of a kind stands for: a register or signal by its name alone, an element or a word of a RAM by an index.
fn destination_kind<'s, 't>(
    alloc: Global,
    x: &'t Ident,
    k: u32,
    own: Option<IndexAt<'s, 't>>,
    kind: &Kind,
) -> Result<TypedDestination<'s, 't>, FrontErr>
    ensures { (s : the_state.State) → Answers typed_read (spec.destination_of x.now k (own_read own.entry) (Some kind.now) s) result s }
{
    match kind {
        Kind::Reg { width, signed, .. } => match own {
            Some(_) => Err(broken_name(alloc, Rule::S6, x)),
            None => Ok(typed(x, Destination::Register(k), *width, *signed)),
        },
        Kind::Array { width, signed, .. } => match own {
            Some(i) => Ok(typed(x, Destination::Element(k, i), *width, *signed)),
            None => Err(broken_name(alloc, Rule::S6, x)),
        },
        Kind::Ram { width, signed, .. } => match own {
            Some(i) => Ok(typed(x, Destination::Word(k, i), *width, *signed)),
            None => Err(broken_name(alloc, Rule::S6, x)),
        },
        Kind::Rom { .. } => Err(broken_name(alloc, Rule::S6, x)),
        Kind::Signal { width, signed, .. } => match own {
            Some(_) => Err(broken_name(alloc, Rule::S6, x)),
            None => Ok(typed(x, Destination::Signal(k), *width, *signed)),
        },
        Kind::Chan { .. } => Err(broken_name(alloc, Rule::S6, x)),
        Kind::Input { .. } => Err(broken_name(alloc, Rule::S6, x)),
        Kind::Output { .. } => Err(broken_name(alloc, Rule::S6, x)),
    }
}

// A destination with its type.
fn typed<'s, 't>(
    name: &'t Ident,
    to: Destination<'s, 't>,
    width: u32,
    signed: bool,
) -> TypedDestination<'s, 't>
    ensures name { result.name.now ≡ name.now }
    ensures to { destination_read result.to ≡ destination_read to.entry }
    ensures width { result.of.width ≡ width }
    ensures signed { result.of.signed ≡ signed }
{
    TypedDestination {
        name,
        to,
        of: ValueType { width, signed },
    }
}
