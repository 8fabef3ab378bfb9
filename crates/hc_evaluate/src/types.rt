ghost use Rattle.std.specs.Prelude.{◌≡◌, ◌≤◌, ℕ, IfOk};
ghost use Rattle.hc_width.specs.Operand.{operand};
ghost use Rattle.hc_scope.specs.Expansion.{Outcome, and_then, pure};
ghost use Rattle.hc_scope.specs.Expression as spec;
ghost use Rattle.hc_tree.specs.declared.expr.ExprTree.TheVariants as e;
ghost use Rattle.hc_scope.specs.Reading.{context_of, Answers};
ghost use Rattle.hc_core.specs.Typed.{kinds_of};
ghost use Rattle.hc_evaluate.specs.Nests.{Nests};
ghost use Rattle.hc_scope.specs.Nodes.{nodes};
ghost use Rattle.hc_scope.specs.Sound.{AreSound};
ghost use Rattle.hc_scope.specs.Types.{type_read};
ghost use Rattle.hc_scope.specs.declared.state.State as the_state;

use crate::parts::Parts;
use hc_scope::{Scope, State, ValueType, broken, place_of};
use hc_tree::{ExprTree, FrontErr, Ident, Place, Rule, Size, Type};
use hc_width::{Value, Whole};
use std::alloc::Global;

// The constant that a value is, or S8 where it is none.
pub(crate) fn needs_constant(v: Value, place: Place) -> Result<Whole, FrontErr>
    ensures { (s : the_state.State) → Answers (λ n. n) (spec.needs_constant place (operand v) s) result s }
{
    match v {
        Value::Constant(n) => {
            drop(v);
            Ok(n)
        }
        Value::Typed(_) => {
            drop(v);
            Err(broken(Rule::S8, place))
        }
    }
}

// A value as a width from 1 to 128 bits: S8 where it is no constant, and S13 where it is another one.
fn width_of(v: Value, place: Place) -> Result<u32, FrontErr>
    ensures answers { (s : the_state.State) → Answers (λ n. n) (spec.width_of place (operand v) s) result s }
    ensures least { IfOk result (λ w. 1 ≤ w) }
    ensures most { IfOk result (λ w. w ≤ 128) }
{
    match needs_constant(v, place) {
        Ok(v) => width_by(v, place),
        Err(e) => Err(e),
    }
}

// A constant as a width from 1 to 128 bits, or S13 where it is none.
fn width_by(v: Whole, place: Place) -> Result<u32, FrontErr>
    ensures answers { (s : the_state.State) → Answers (λ n. n) (spec.width_by place v s) result s }
    ensures least { IfOk result (λ w. 1 ≤ w) }
    ensures most { IfOk result (λ w. w ≤ 128) }
{
    if v.is_negative() || v.magnitude() < 1 || v.magnitude() > 128 {
        Err(broken(Rule::S13, place))
    } else {
        Ok(v.magnitude() as u32)
    }
}

impl<
    F: Copy
        + for<'s, 't> Fn(
            Global,
            &mut State,
            &Scope<'s, 't>,
            u32,
            u32,
            &'t ExprTree,
        ) -> Result<Value, FrontErr>,
    G: Copy,
> Parts<F, G> {
    // The constant that an expression has, or S8 where it has none.
    pub(crate) fn constant<'s, 't>(
        &self,
        state: &mut State,
        scope: &Scope<'s, 't>,
        calls: u32,
        e: &'t ExprTree,
    ) -> Result<Whole, FrontErr>
        requires nests { Nests self.now.room (F.pre self.now.expression) (F.post self.now.expression) }
        requires sound { AreSound (kinds_of state.old.objects) }
        ensures answers { Answers (λ n. n) (spec.constant (nodes self.now.room) (context_of scope.now calls) e.now state.old) result state.new }
        ensures objects { state.new.objects ≡ state.old.objects }
    {
        match self.expression(state, scope, calls, e) {
            Ok(v) => needs_constant(v, place_of(e)),
            Err(e) => Err(e),
        }
    }

    // A constant that is written as a width.
    #[tactic(auto, unfolding(hc_scope::specs::Expression::width_in_range))]
    pub(crate) fn width_in_range<'s, 't>(
        &self,
        state: &mut State,
        scope: &Scope<'s, 't>,
        calls: u32,
        e: &'t ExprTree,
    ) -> Result<u32, FrontErr>
        requires nests { Nests self.now.room (F.pre self.now.expression) (F.post self.now.expression) }
        requires sound { AreSound (kinds_of state.old.objects) }
        ensures answers { Answers (λ n. n) (spec.width_in_range (nodes self.now.room) (context_of scope.now calls) e.now state.old) result state.new }
        ensures least { IfOk result (λ w. 1 ≤ w) }
        ensures most { IfOk result (λ w. w ≤ 128) }
        ensures objects { state.new.objects ≡ state.old.objects }
    {
        match self.expression(state, scope, calls, e) {
            Ok(v) => width_of(v, place_of(e)),
            Err(e) => Err(e),
        }
    }

    // A number that is written as a width.
    #[tactic(auto, using(crate::proofs::Depth::place_of_number), unfolding(hc_scope::specs::Expression::width_in_range))]
    pub(crate) fn number_width<'s, 't>(
        &self,
        state: &mut State,
        scope: &Scope<'s, 't>,
        calls: u32,
        place: Place,
        value: u128,
    ) -> Result<u32, FrontErr>
        requires nests { Nests self.now.room (F.pre self.now.expression) (F.post self.now.expression) }
        requires sound { AreSound (kinds_of state.old.objects) }
        ensures answers { Answers (λ n. n) (spec.width_in_range (nodes self.now.room) (context_of scope.now calls) (e.Number place value) state.old) result state.new }
        ensures least { IfOk result (λ w. 1 ≤ w) }
        ensures most { IfOk result (λ w. w ≤ 128) }
        ensures objects { state.new.objects ≡ state.old.objects }
    {
        match self.number(state, scope, calls, place, value) {
            Ok(v) => width_of(v, place),
            Err(e) => Err(e),
        }
    }

    // A name that is written as a width.
    #[tactic(auto, using(crate::proofs::Depth::place_of_name), unfolding(hc_scope::specs::Expression::width_in_range))]
    pub(crate) fn name_width<'s, 't>(
        &self,
        state: &mut State,
        scope: &Scope<'s, 't>,
        calls: u32,
        x: &'t Ident,
    ) -> Result<u32, FrontErr>
        requires nests { Nests self.now.room (F.pre self.now.expression) (F.post self.now.expression) }
        requires sound { AreSound (kinds_of state.old.objects) }
        ensures answers { Answers (λ n. n) (spec.width_in_range (nodes self.now.room) (context_of scope.now calls) (e.Name x.now) state.old) result state.new }
        ensures least { IfOk result (λ w. 1 ≤ w) }
        ensures most { IfOk result (λ w. w ≤ 128) }
        ensures objects { state.new.objects ≡ state.old.objects }
    {
        match self.name(state, scope, calls, x) {
            Ok(v) => width_of(v, x.place),
            Err(e) => Err(e),
        }
    }

    // A size, as a width.
    pub(crate) fn size_width<'s, 't>(
        &self,
        state: &mut State,
        scope: &Scope<'s, 't>,
        calls: u32,
        size: &'t Size,
    ) -> Result<u32, FrontErr>
        requires nests { Nests self.now.room (F.pre self.now.expression) (F.post self.now.expression) }
        requires sound { AreSound (kinds_of state.old.objects) }
        ensures answers { Answers (λ n. n) (spec.width_in_range (nodes self.now.room) (context_of scope.now calls) (spec.size_expression size.now) state.old) result state.new }
        ensures least { IfOk result (λ w. 1 ≤ w) }
        ensures most { IfOk result (λ w. w ≤ 128) }
        ensures objects { state.new.objects ≡ state.old.objects }
    {
        match size {
            Size::Number { place, value } => self.number_width(state, scope, calls, *place, *value),
            Size::Name(x) => self.name_width(state, scope, calls, x),
            Size::Expr(e) => self.width_in_range(state, scope, calls, e.get()),
        }
    }

    // A type: its width in bits, and whether it has a sign.
    pub(crate) fn type_of<'s, 't>(
        &self,
        state: &mut State,
        scope: &Scope<'s, 't>,
        calls: u32,
        of: &'t Type,
    ) -> Result<ValueType, FrontErr>
        requires nests { Nests self.now.room (F.pre self.now.expression) (F.post self.now.expression) }
        requires sound { AreSound (kinds_of state.old.objects) }
        ensures answers { Answers type_read (spec.type_of (nodes self.now.room) (context_of scope.now calls) of.now state.old) result state.new }
        ensures least { IfOk result (λ t. 1 ≤ t.width) }
        ensures most { IfOk result (λ t. t.width ≤ 128) }
        ensures objects { state.new.objects ≡ state.old.objects }
    {
        match of {
            Type::Unsigned { size, .. } => with_sign(
                self.size_width(state, scope, calls, size),
                false,
            ),
            Type::Int { size, .. } => with_sign(self.size_width(state, scope, calls, size), true),
            Type::Signed { size, .. } => with_sign(
                self.size_width(state, scope, calls, size),
                true,
            ),
        }
    }
}

// A width with whether there is a sign.
fn with_sign(width: Result<u32, FrontErr>, signed: bool) -> Result<ValueType, FrontErr>
    ensures answers { (o : Outcome ℕ) (s : the_state.State) → Answers (λ n. n) o width s
        → Answers type_read (and_then o (λ w. pure (record { width = w; signed = signed }))) result s }
    ensures least { IfOk width (λ w. 1 ≤ w) → IfOk result (λ t. 1 ≤ t.width) }
    ensures most { IfOk width (λ w. w ≤ 128) → IfOk result (λ t. t.width ≤ 128) }
{
    match width {
        Ok(width) => Ok(ValueType { width, signed }),
        Err(e) => Err(e),
    }
}
