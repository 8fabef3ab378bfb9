ghost use Rattle.std.specs.Prelude.{◌≡◌, ◌<◌, true, IfOk, MatchOption};
ghost use Rattle.hc_core.specs.Sound.{IsWidth};
ghost use Rattle.hc_core.specs.Typed.{kinds_of};
ghost use Rattle.hc_tree.specs.declared.expr.ExprTree.TheVariants as e;
ghost use Rattle.hc_width.specs.Operand.{operand, IsOperand};
ghost use Rattle.hc_scope.specs.declared.state.State as the_state;
ghost use Rattle.hc_scope.specs.Expansion.{and_then, pure};
ghost use Rattle.hc_scope.specs.Expression as spec;
ghost use Rattle.hc_evaluate.specs.Nests.{Nests, Shows};
ghost use Rattle.hc_scope.specs.Nodes.{nodes};
ghost use Rattle.hc_scope.specs.Parts as parts;
ghost use Rattle.hc_scope.specs.Reading.{scope_of, shown_of, context_of, Answers};
ghost use Rattle.hc_scope.specs.Scope.{find};
ghost use Rattle.hc_scope.specs.Sound.{AreSound, IsShown};
ghost use Rattle.hc_scope.specs.Types.{type_read};

use crate::index::as_shown;
use crate::parts::Parts;
use crate::types::needs_constant;
use crate::values::port_value;
use hc_scope::{Scope, Shown, State, ValueType, enter, is_call, place_of};
use hc_tree::{ExprTree, FrontErr, Ident, Type};
use hc_width::{Value, Whole};
use std::alloc::Global;

/// The value of an expression around which `room` more nodes may be open, within so many macro calls; or the first rule or
/// limit that it breaks. The expression is a node: L4, L5 and L6 of it come before its parts, and its own rule behind them.
#[tactic(auto, using(crate::proofs::Depth::expression_is))]
#[cycle(expand)]
pub fn expression<'s, 't>(
    alloc: Global,
    state: &mut State,
    scope: &Scope<'s, 't>,
    calls: u32,
    room: u32,
    e: &'t ExprTree,
) -> Result<Value, FrontErr>
    requires sound { AreSound (kinds_of state.old.objects) }
    ensures answers { Answers operand ((nodes room).expression (context_of scope.now calls) e.now state.old) result state.new }
    ensures typed { IfOk result (λ v. IsOperand (kinds_of state.old.objects) (operand v)) }
    ensures objects { state.new.objects ≡ state.old.objects }
{
    match enter(state, is_call(scope, e), calls, place_of(e), room) {
        Ok(()) => Parts {
            alloc,
            room: room - 1,
            expression,
            before_index,
        }
        .expression_form(state, scope, calls, e),
        Err(e) => Err(e),
    }
}

/// What an expression before an index stands for: a value, or an array, RAM or ROM.
#[tactic(auto, using(crate::proofs::Depth::before_index_is))]
#[cycle(expand)]
pub(crate) fn before_index<'s, 't>(
    alloc: Global,
    state: &mut State,
    scope: &Scope<'s, 't>,
    calls: u32,
    room: u32,
    e: &'t ExprTree,
) -> Result<Shown, FrontErr>
    requires sound { AreSound (kinds_of state.old.objects) }
    ensures answers { Answers shown_of ((nodes room).before_index (context_of scope.now calls) e.now state.old) result state.new }
    ensures typed { IfOk result (λ v. IsShown (kinds_of state.old.objects) (shown_of v)) }
    ensures objects { state.new.objects ≡ state.old.objects }
{
    match enter(state, is_call(scope, e), calls, place_of(e), room) {
        Ok(()) => Parts {
            alloc,
            room: room - 1,
            expression,
            before_index,
        }
        .before_index_form(state, scope, calls, e),
        Err(e) => Err(e),
    }
}

/// The constant that an expression has: what the expression breaks, then S8 at its place where it has no constant.
pub fn constant<'s, 't>(
    alloc: Global,
    state: &mut State,
    scope: &Scope<'s, 't>,
    calls: u32,
    room: u32,
    e: &'t ExprTree,
) -> Result<Whole, FrontErr>
    requires sound { AreSound (kinds_of state.old.objects) }
    ensures answers { Answers (λ v. v) (spec.constant (nodes room) (context_of scope.now calls) e.now state.old) result state.new }
    ensures objects { state.new.objects ≡ state.old.objects }
{
    match expression(alloc, state, scope, calls, room, e) {
        Ok(v) => needs_constant(v, place_of(e)),
        Err(e) => Err(e),
    }
}

/// A type, with its width in bits: what the size of a type breaks, S8 and S13 with it.
pub fn type_of<'s, 't>(
    alloc: Global,
    state: &mut State,
    scope: &Scope<'s, 't>,
    calls: u32,
    room: u32,
    of: &'t Type,
) -> Result<ValueType, FrontErr>
    requires sound { AreSound (kinds_of state.old.objects) }
    ensures answers { Answers type_read (spec.type_of (nodes room) (context_of scope.now calls) of.now state.old) result state.new }
    ensures width { IfOk result (λ t. IsWidth t.width) }
    ensures objects { state.new.objects ≡ state.old.objects }
{
    Parts {
        alloc,
        room,
        expression,
        before_index,
    }
    .type_of(state, scope, calls, of)
}

impl<
    F: Copy
        + for<'s, 't> Fn(
            Global,
            &mut State,
            &Scope<'s, 't>,
            u32,
            u32,
            &'t ExprTree,
        ) -> Result<Value, FrontErr>,
    G: Copy
        + for<'s, 't> Fn(
            Global,
            &mut State,
            &Scope<'s, 't>,
            u32,
            u32,
            &'t ExprTree,
        ) -> Result<Shown, FrontErr>,
> Parts<F, G> {
    // An expression by its form.
    #[tactic(auto, unfolding(hc_scope::specs::Expression::expression_form, hc_scope::specs::Expression::port_value))]
    fn expression_form<'s, 't>(
        &self,
        state: &mut State,
        scope: &Scope<'s, 't>,
        calls: u32,
        e: &'t ExprTree,
    ) -> Result<Value, FrontErr>
        requires nests { Nests self.now.room (F.pre self.now.expression) (F.post self.now.expression) }
        requires shows { Shows self.now.room (G.pre self.now.before_index) (G.post self.now.before_index) }
        requires sound { AreSound (kinds_of state.old.objects) }
        requires few { spec.is_call (scope_of scope.now) e.now ≡ true → calls < 200 }
        ensures answers { Answers operand (spec.expression_form (nodes self.now.room) (context_of scope.now calls) e.now state.old) result state.new }
        ensures typed { IfOk result (λ v. IsOperand (kinds_of state.old.objects) (operand v)) }
        ensures objects { state.new.objects ≡ state.old.objects }
    {
        match e {
            ExprTree::Number { value, .. } => Ok(Value::Constant(Whole::from_number(*value))),
            ExprTree::Name(x) => self.name_value(state, scope, calls, x),
            ExprTree::Call { name, arguments } => {
                self.call(state, scope, calls, name, arguments.as_slice())
            }
            ExprTree::Port { interface, port } => {
                port_value(self.alloc, state, scope, interface, port)
            }
            ExprTree::Width { place, of } => self.width(state, scope, calls, *place, of.get()),
            ExprTree::Select {
                place,
                condition,
                yes,
                no,
            } => self.select(
                state,
                scope,
                calls,
                *place,
                condition.get(),
                yes.get(),
                no.get(),
            ),
            ExprTree::Index { place, of, at } => {
                self.index(state, scope, calls, *place, of.get(), at.get())
            }
            ExprTree::Bits {
                place,
                of,
                high,
                low,
            } => self.bits(state, scope, calls, *place, of.get(), high.get(), low.get()),
            ExprTree::Unary { place, op, of } => {
                self.unary(state, scope, calls, *place, *op, of.get())
            }
            ExprTree::Cast { place, to, of } => {
                self.cast(state, scope, calls, *place, to, of.get())
            }
            ExprTree::Binary {
                place,
                left,
                op,
                right,
            } => self.binary(state, scope, calls, *place, left.get(), *op, right.get()),
            ExprTree::Choice {
                place,
                condition,
                yes,
                no,
            } => self.choice(
                state,
                scope,
                calls,
                *place,
                condition.get(),
                yes.get(),
                no.get(),
            ),
        }
    }

    // An expression before an index, by its form.
    fn before_index_form<'s, 't>(
        &self,
        state: &mut State,
        scope: &Scope<'s, 't>,
        calls: u32,
        e: &'t ExprTree,
    ) -> Result<Shown, FrontErr>
        requires nests { Nests self.now.room (F.pre self.now.expression) (F.post self.now.expression) }
        requires shows { Shows self.now.room (G.pre self.now.before_index) (G.post self.now.before_index) }
        requires sound { AreSound (kinds_of state.old.objects) }
        requires few { spec.is_call (scope_of scope.now) e.now ≡ true → calls < 200 }
        ensures answers { Answers shown_of (spec.before_index_form (nodes self.now.room) (context_of scope.now calls) e.now state.old) result state.new }
        ensures typed { IfOk result (λ v. IsShown (kinds_of state.old.objects) (shown_of v)) }
        ensures objects { state.new.objects ≡ state.old.objects }
    {
        match name_of(e) {
            Some(x) => self.name_shown(state, scope, calls, x),
            None => as_shown(self.expression_form(state, scope, calls, e)),
        }
    }
}

// The name that an expression is, if it is one.
#[tactic(auto, unfolding(hc_scope::specs::Expression::expression_form, hc_scope::specs::Expression::before_index_form))]
fn name_of<'t>(e: &'t ExprTree) -> Option<&'t Ident>
    ensures form { MatchOption result
        ((p : parts.Parts) (c : parts.Context) (s : the_state.State) → spec.before_index_form p c e.now s ≡ and_then (spec.expression_form p c e.now s) (λ v. pure (parts.a_value v)))
        (λ x. (p : parts.Parts) (c : parts.Context) (s : the_state.State) → spec.before_index_form p c e.now s ≡ spec.name_shown p c x.now s) }
    ensures call { MatchOption result (Unit {0}) (λ x. (scope : _) → spec.is_call scope e.now ≡ spec.is_macro (find x.now.name scope)) }
{
    match e {
        ExprTree::Name(x) => Some(x),
        ExprTree::Number { .. } => None,
        ExprTree::Call { .. } => None,
        ExprTree::Port { .. } => None,
        ExprTree::Width { .. } => None,
        ExprTree::Select { .. } => None,
        ExprTree::Index { .. } => None,
        ExprTree::Bits { .. } => None,
        ExprTree::Unary { .. } => None,
        ExprTree::Cast { .. } => None,
        ExprTree::Binary { .. } => None,
        ExprTree::Choice { .. } => None,
    }
}
