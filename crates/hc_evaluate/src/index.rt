ghost use Rattle.std.specs.Prelude.{◌≡◌, ◌<◌, IfOk, Some, true, false, List, slice_get};
ghost use Rattle.hc_tree.specs.declared.expr.ExprTree.TheOpen.{ExprTree-F};
ghost use Rattle.hc_core.specs.declared.object.Kind.{Kind};
ghost use Rattle.hc_num.specs.Index.{index_width};
ghost use Rattle.hc_core.specs.Read.{expression};
ghost use Rattle.hc_core.specs.Typed.{Typed, kinds_of};
ghost use Rattle.hc_width.specs.Operand as o;
ghost use Rattle.hc_width.specs.Operand.{Operand, operand, Of, IsOperand, IsTyped};
ghost use Rattle.hc_scope.specs.Expansion.{Outcome, Yields, and_then, pure};
ghost use Rattle.hc_scope.specs.Expression as spec;
ghost use Rattle.hc_evaluate.specs.Nests.{Nests, Shows};
ghost use Rattle.hc_scope.specs.Nodes.{nodes};
ghost use Rattle.hc_scope.specs.Parts.{a_value};
ghost use Rattle.hc_scope.specs.Reading.{scope_of, meaning_of, shown_of, context_of, Answers};
ghost use Rattle.hc_scope.specs.Scope.{find};
ghost use Rattle.hc_scope.specs.Sound.{AreSound, IsShown};
ghost use Rattle.hc_scope.specs.declared.state.State as the_state;

use crate::parts::Parts;
use crate::types::needs_constant;
use crate::values::object_value;
use hc_core::{Expr, Kind, Objects};
use hc_num::{Num, aw};
use hc_scope::{Found, Meaning, Scope, Shown, State, broken, broken_name, find, place_of};
use hc_tree::{ExprTree, FrontErr, Ident, Place, Rule};
use hc_width::{Value, Whole, cut, type_of};
use sqlite_items::Boxed;
use std::alloc::Global;

// An index of an array, RAM or ROM, by what it is worth. It is unsigned and just wide enough for all of them, or a constant
// below their number; else it breaks S15.
#[tactic(auto, unfolding(hc_scope::specs::Expression::index))]
pub(crate) fn index(state: &State, k: u32, at: &ExprTree, i: Value) -> Result<Expr, FrontErr>
    requires { IsOperand (kinds_of state.now.objects) (operand i) }
    ensures answers { Answers expression (spec.index k at.now (operand i) state.now) result state.now }
    ensures typed { IfOk result (λ e. Typed (kinds_of state.now.objects) (expression e) (index_width (spec.kind_length (slice_get (kinds_of state.now.objects) k))) false) }
{
    let length = length_of(&state.objects, k);
    match i {
        Value::Constant(v) => constant_index(length, v, place_of(at)),
        Value::Typed(e) => typed_index(state, length, e, place_of(at)),
    }
}

// An index that is a constant.
#[tactic(auto, using(hc_core::proofs::Read::reading))]
fn constant_index(length: u32, v: Whole, place: Place) -> Result<Expr, FrontErr>
    ensures answers { (ks : _) (s : the_state.State) → Answers expression (spec.index_by ks length place (o.Whole v) s) result s }
    ensures typed { (ks : _) → IfOk result (λ e. Typed ks (expression e) (index_width length) false) }
{
    if v.is_negative() {
        Err(broken(Rule::S15, place))
    } else if v.magnitude() < u128::from(length) {
        Ok(Expr::Const(Num::new(aw(length), false, v.magnitude())))
    } else {
        Err(broken(Rule::S15, place))
    }
}

// An index that has a type.
#[tactic(auto, using(hc_width::proofs::Kept::some_type))]
fn typed_index(state: &State, length: u32, e: Expr, place: Place) -> Result<Expr, FrontErr>
    requires { IsTyped (kinds_of state.now.objects) (expression e) }
    ensures answers { Answers expression (spec.index_by (kinds_of state.now.objects) length place (Of (expression e)) state.now) result state.now }
    ensures typed { IfOk result (λ e. Typed (kinds_of state.now.objects) (expression e) (index_width length) false) }
{
    let (width, signed) = type_of(&state.objects, &e);
    if width != aw(length) || signed {
        drop(e);
        Err(broken(Rule::S15, place))
    } else {
        Ok(e)
    }
}

// How many elements or words the object with a number has.
fn length_of(objects: &Objects, k: u32) -> u32
    ensures { result ≡ spec.kind_length (slice_get (kinds_of objects.now) k) }
{
    match objects.get(k as usize) {
        Some(object) => kind_length(&object.kind),
        None => 0,
    }
}

// How many elements or words an object of a kind has.
fn kind_length(kind: &Kind) -> u32
    ensures { result ≡ spec.kind_length (Some kind.now) }
{
    match kind {
        Kind::Reg { .. } => 0,
        Kind::Array { length, .. } => *length,
        Kind::Ram { length, .. } => *length,
        Kind::Rom { length, .. } => *length,
        Kind::Signal { .. } => 0,
        Kind::Chan { .. } => 0,
        Kind::Input { .. } => 0,
        Kind::Output { .. } => 0,
    }
}

// Whether the object with a number is an array, RAM or ROM.
pub(crate) fn is_memory(objects: &Objects, k: u32) -> bool
    ensures { result ≡ spec.is_memory (slice_get (kinds_of objects.now) k) }
{
    match objects.get(k as usize) {
        Some(object) => is_memory_kind(&object.kind),
        None => false,
    }
}

// Whether a kind is that of an array, RAM or ROM.
fn is_memory_kind(kind: &Kind) -> bool
    ensures { result ≡ spec.is_memory (Some kind.now) }
{
    match kind {
        Kind::Reg { .. } => false,
        Kind::Array { .. } => true,
        Kind::Ram { .. } => true,
        Kind::Rom { .. } => true,
        Kind::Signal { .. } => false,
        Kind::Chan { .. } => false,
        Kind::Input { .. } => false,
        Kind::Output { .. } => false,
    }
}

// Whether the object with a number is an array.
fn is_array(objects: &Objects, k: u32) -> bool
    ensures { result ≡ spec.is_array (slice_get (kinds_of objects.now) k) }
{
    match objects.get(k as usize) {
        Some(object) => is_array_kind(&object.kind),
        None => false,
    }
}

// Whether a kind is that of an array.
fn is_array_kind(kind: &Kind) -> bool
    ensures { result ≡ spec.is_array (Some kind.now) }
{
    match kind {
        Kind::Reg { .. } => false,
        Kind::Array { .. } => true,
        Kind::Ram { .. } => false,
        Kind::Rom { .. } => false,
        Kind::Signal { .. } => false,
        Kind::Chan { .. } => false,
        Kind::Input { .. } => false,
        Kind::Output { .. } => false,
    }
}

// An element of an array, or a word of a RAM or ROM.
#[tactic(auto, using(hc_core::proofs::Read::reading))]
fn memory_part(alloc: Global, objects: &Objects, k: u32, i: Expr) -> Result<Value, FrontErr>
    ensures { (s : the_state.State) → Answers operand (Yields (Of (spec.memory_part k (slice_get (kinds_of objects.now) k) (expression i))) s) result s }
{
    match Boxed::new(alloc, i) {
        Ok(i) => {
            if is_array(objects, k) {
                Ok(Value::Typed(Expr::Element(k, i)))
            } else {
                Ok(Value::Typed(Expr::Word(k, i)))
            }
        }
        Err(_) => Err(FrontErr::NoMemory),
    }
}

// One bit of a value, by a constant.
fn bit_of(
    alloc: Global,
    state: &State,
    place: Place,
    at: &ExprTree,
    v: Value,
    i: Value,
) -> Result<Value, FrontErr>
    requires { IsOperand (kinds_of state.now.objects) (operand v) }
    ensures answers { Answers operand (spec.bit_of place at.now (operand v) (operand i) state.now) result state.now }
    ensures typed { IfOk result (λ w. IsOperand (kinds_of state.now.objects) (operand w)) }
{
    match needs_constant(i, place_of(at)) {
        Ok(n) => cut(alloc, &state.objects, v, n, n, place),
        Err(e) => {
            drop(v);
            Err(e)
        }
    }
}

// An element of an array, or a word of a RAM or ROM, by what its index is worth.
fn word_of(alloc: Global, state: &State, at: &ExprTree, k: u32, i: Value) -> Result<Value, FrontErr>
    requires sound { AreSound (kinds_of state.now.objects) }
    requires memory { spec.is_memory (slice_get (kinds_of state.now.objects) k) ≡ true }
    requires operand { IsOperand (kinds_of state.now.objects) (operand i) }
    ensures answers { Answers operand (spec.word_of at.now k (operand i) state.now) result state.now }
    ensures typed { IfOk result (λ w. IsOperand (kinds_of state.now.objects) (operand w)) }
{
    match index(state, k, at, i) {
        Ok(x) => memory_part(alloc, &state.objects, k, x),
        Err(e) => Err(e),
    }
}

// What stands before an index, at this index.
fn index_of(
    alloc: Global,
    state: &State,
    place: Place,
    at: &ExprTree,
    shown: Shown,
    i: Value,
) -> Result<Value, FrontErr>
    requires sound { AreSound (kinds_of state.now.objects) }
    requires shown { IsShown (kinds_of state.now.objects) (shown_of shown) }
    requires operand { IsOperand (kinds_of state.now.objects) (operand i) }
    ensures answers { Answers operand (spec.index_of place at.now (shown_of shown) (operand i) state.now) result state.now }
    ensures typed { IfOk result (λ w. IsOperand (kinds_of state.now.objects) (operand w)) }
{
    match shown {
        Shown::Value(v) => bit_of(alloc, state, place, at, v, i),
        Shown::Memory(k) => word_of(alloc, state, at, k, i),
    }
}

// A value before an index.
pub(crate) fn as_shown(value: Result<Value, FrontErr>) -> Result<Shown, FrontErr>
    ensures answers { (o : Outcome Operand) (s : the_state.State) → Answers operand o value s
        → Answers shown_of (and_then o (λ v. pure (a_value v))) result s }
    ensures typed { (ks : List Kind) → IfOk value (λ v. IsOperand ks (operand v)) → IfOk result (λ v. IsShown ks (shown_of v)) }
{
    match value {
        Ok(v) => Ok(Shown::Value(v)),
        Err(e) => Err(e),
    }
}

// An object before an index.
fn object_shown(alloc: Global, state: &State, x: &Ident, k: u32) -> Result<Shown, FrontErr>
    requires sound { AreSound (kinds_of state.now.objects) }
    ensures answers { Answers shown_of (spec.object_shown x.now k state.now) result state.now }
    ensures typed { IfOk result (λ v. IsShown (kinds_of state.now.objects) (shown_of v)) }
{
    if is_memory(&state.objects, k) {
        Ok(Shown::Memory(k))
    } else {
        as_shown(object_value(alloc, state, x, k))
    }
}

impl<
    F: Copy
        + for<'s, 't> Fn(
            Global,
            &mut State,
            &Scope<'s, 't>,
            u32,
            u32,
            &'t ExprTree,
        ) -> Result<Value, FrontErr>,
    G: Copy
        + for<'s, 't> Fn(
            Global,
            &mut State,
            &Scope<'s, 't>,
            u32,
            u32,
            &'t ExprTree,
        ) -> Result<Shown, FrontErr>,
> Parts<F, G> {
    // A name before an index.
    #[tactic(auto, unfolding(hc_scope::specs::Expression::name_shown))]
    pub(crate) fn name_shown<'s, 't>(
        &self,
        state: &mut State,
        scope: &Scope<'s, 't>,
        calls: u32,
        x: &'t Ident,
    ) -> Result<Shown, FrontErr>
        requires nests { Nests self.now.room (F.pre self.now.expression) (F.post self.now.expression) }
        requires shows { Shows self.now.room (G.pre self.now.before_index) (G.post self.now.before_index) }
        requires few { spec.is_macro (find x.now.name (scope_of scope.now)) ≡ true → calls < 200 }
        requires sound { AreSound (kinds_of state.old.objects) }
        ensures answers { Answers shown_of (spec.name_shown (nodes self.now.room) (context_of scope.now calls) x.now state.old) result state.new }
        ensures typed { IfOk result (λ v. IsShown (kinds_of state.old.objects) (shown_of v)) }
        ensures objects { state.new.objects ≡ state.old.objects }
    {
        match find(scope, x.name.as_bytes()) {
            Some(found) => self.found_shown(state, scope, calls, x, &found),
            None => Err(broken_name(self.alloc, Rule::S4, x)),
        }
    }

    // What a name before an index stands for.
    pub(crate) fn found_shown<'s, 't>(
        &self,
        state: &mut State,
        scope: &Scope<'s, 't>,
        calls: u32,
        x: &'t Ident,
        found: &Found<'_, 't>,
    ) -> Result<Shown, FrontErr>
        requires nests { Nests self.now.room (F.pre self.now.expression) (F.post self.now.expression) }
        requires shows { Shows self.now.room (G.pre self.now.before_index) (G.post self.now.before_index) }
        requires few { spec.is_macro_expression (meaning_of found.now.meaning) ≡ true → calls < 200 }
        requires sound { AreSound (kinds_of state.old.objects) }
        ensures answers { Answers shown_of (spec.shown_by (nodes self.now.room) (context_of scope.now calls) x.now (scope_of found.now.scope) (meaning_of found.now.meaning) state.old) result state.new }
        ensures typed { IfOk result (λ v. IsShown (kinds_of state.old.objects) (shown_of v)) }
        ensures objects { state.new.objects ≡ state.old.objects }
    {
        match &found.meaning {
            Meaning::Object(k) => object_shown(self.alloc, state, x, *k),
            Meaning::Interface(_, _) => as_shown(self.found_value(state, scope, calls, x, found)),
            Meaning::Number(_) => as_shown(self.found_value(state, scope, calls, x, found)),
            Meaning::Expression(_, _) => as_shown(self.found_value(state, scope, calls, x, found)),
            Meaning::Procedure(_, _) => as_shown(self.found_value(state, scope, calls, x, found)),
            Meaning::Argument(argument, call) => self.before_index(state, call, calls, argument),
        }
    }

    // `expr [ expr ]`
    pub(crate) fn index<'s, 't>(
        &self,
        state: &mut State,
        scope: &Scope<'s, 't>,
        calls: u32,
        place: Place,
        of: &'t ExprTree,
        at: &'t ExprTree,
    ) -> Result<Value, FrontErr>
        requires nests { Nests self.now.room (F.pre self.now.expression) (F.post self.now.expression) }
        requires shows { Shows self.now.room (G.pre self.now.before_index) (G.post self.now.before_index) }
        requires sound { AreSound (kinds_of state.old.objects) }
        ensures answers { Answers operand (spec.expression_layer (nodes self.now.room) (context_of scope.now calls) (ExprTree-F.Index place of.now at.now) state.old) result state.new }
        ensures typed { IfOk result (λ v. IsOperand (kinds_of state.old.objects) (operand v)) }
        ensures objects { state.new.objects ≡ state.old.objects }
    {
        match self.before_index(state, scope, calls, of) {
            Ok(shown) => match self.expression(state, scope, calls, at) {
                Ok(i) => index_of(self.alloc, state, place, at, shown, i),
                Err(e) => {
                    drop(shown);
                    Err(e)
                }
            },
            Err(e) => Err(e),
        }
    }
}
