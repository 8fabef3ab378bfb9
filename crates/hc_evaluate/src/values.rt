ghost use Rattle.std.specs.Prelude.{◌≡◌, ◌<◌, [], true, IfOk, Some};
ghost use Rattle.hc_tree.specs.declared.expr.ExprTree.TheVariants as e;
ghost use Rattle.hc_core.specs.Typed.{kinds_of};
ghost use Rattle.hc_width.specs.Operand.{operand, IsOperand};
ghost use Rattle.hc_scope.specs.Expression as spec;
ghost use Rattle.hc_evaluate.specs.Nests.{Nests};
ghost use Rattle.hc_scope.specs.Nodes.{nodes};
ghost use Rattle.hc_scope.specs.Reading.{scope_of, meaning_of, context_of, Answers};
ghost use Rattle.hc_scope.specs.Scope.{find};
ghost use Rattle.hc_scope.specs.Sound.{AreSound};
ghost use Rattle.hc_scope.specs.declared.state.State as the_state;

use crate::parts::Parts;
use hc_core::{Expr, Kind};
use hc_scope::{Found, Meaning, Scope, State, broken_name, call_scope, enter, find, is_macro};
use hc_tree::{ExprTree, FrontErr, Ident, Place, Rule};
use hc_width::{Value, Whole};
use std::alloc::Global;

// The value of a register or signal. An object of another kind can't stand as a value, and breaks S6.
#[tactic(auto, using(crate::proofs::ObjectTypes::register_typed, crate::proofs::ObjectTypes::signal_typed))]
pub(crate) fn object_value(
    alloc: Global,
    state: &State,
    x: &Ident,
    k: u32,
) -> Result<Value, FrontErr>
    requires sound { AreSound (kinds_of state.now.objects) }
    ensures answers { Answers operand (spec.object_value x.now k state.now) result state.now }
    ensures typed { IfOk result (λ v. IsOperand (kinds_of state.now.objects) (operand v)) }
{
    match state.objects.get(k as usize) {
        Some(object) => kind_value(alloc, x, k, &object.kind),
        None => Err(broken_name(alloc, Rule::S6, x)),
    }
}

// The value of an object of a kind.
#[tactic(auto, using(hc_core::proofs::Read::reading))]
fn kind_value(alloc: Global, x: &Ident, k: u32, kind: &Kind) -> Result<Value, FrontErr>
    ensures { (s : the_state.State) → Answers operand (spec.kind_value x.now k (Some kind.now) s) result s }
{
    match kind {
        Kind::Reg { .. } => Ok(Value::Typed(Expr::Reg(k))),
        Kind::Array { .. } => Err(broken_name(alloc, Rule::S6, x)),
        Kind::Ram { .. } => Err(broken_name(alloc, Rule::S6, x)),
        Kind::Rom { .. } => Err(broken_name(alloc, Rule::S6, x)),
        Kind::Signal { .. } => Ok(Value::Typed(Expr::Signal(k))),
        Kind::Chan { .. } => Err(broken_name(alloc, Rule::S6, x)),
        Kind::Input { .. } => Err(broken_name(alloc, Rule::S6, x)),
        Kind::Output { .. } => Err(broken_name(alloc, Rule::S6, x)),
    }
}

// The port of an interface: that of an input can be read, by its name.
pub(crate) fn port_value(
    alloc: Global,
    state: &State,
    scope: &Scope<'_, '_>,
    x: &Ident,
    port: &Ident,
) -> Result<Value, FrontErr>
    requires sound { AreSound (kinds_of state.now.objects) }
    ensures answers { Answers operand (spec.port_found x.now port.now (find x.now.name (scope_of scope.now)) state.now) result state.now }
    ensures typed { IfOk result (λ v. IsOperand (kinds_of state.now.objects) (operand v)) }
{
    match find(scope, x.name.as_bytes()) {
        Some(found) => found_port(alloc, state, x, port, &found.meaning),
        None => Err(broken_name(alloc, Rule::S4, x)),
    }
}

// The port of what a name stands for.
fn found_port(
    alloc: Global,
    state: &State,
    x: &Ident,
    port: &Ident,
    meaning: &Meaning<'_, '_>,
) -> Result<Value, FrontErr>
    requires sound { AreSound (kinds_of state.now.objects) }
    ensures answers { Answers operand (spec.port_by x.now port.now (meaning_of meaning.now) state.now) result state.now }
    ensures typed { IfOk result (λ v. IsOperand (kinds_of state.now.objects) (operand v)) }
{
    match meaning {
        Meaning::Object(_) => Err(broken_name(alloc, Rule::S6, x)),
        Meaning::Interface(k, name) => object_port(alloc, state, x, port, *k, name),
        Meaning::Number(_) => Err(broken_name(alloc, Rule::S6, x)),
        Meaning::Expression(_, _) => Err(broken_name(alloc, Rule::S6, x)),
        Meaning::Procedure(_, _) => Err(broken_name(alloc, Rule::S6, x)),
        Meaning::Argument(_, _) => Err(broken_name(alloc, Rule::S6, x)),
    }
}

// The port of an object, which has this name.
fn object_port(
    alloc: Global,
    state: &State,
    x: &Ident,
    port: &Ident,
    k: u32,
    name: &Ident,
) -> Result<Value, FrontErr>
    requires sound { AreSound (kinds_of state.now.objects) }
    ensures answers { Answers operand (spec.object_port x.now port.now k name.now.name state.now) result state.now }
    ensures typed { IfOk result (λ v. IsOperand (kinds_of state.now.objects) (operand v)) }
{
    match state.objects.get(k as usize) {
        Some(object) => kind_port(alloc, x, port, k, name, &object.kind),
        None => Err(broken_name(alloc, Rule::S6, x)),
    }
}

// The port of an object of a kind.
#[tactic(auto, using(hc_core::proofs::Read::reading))]
fn kind_port(
    alloc: Global,
    x: &Ident,
    port: &Ident,
    k: u32,
    name: &Ident,
    kind: &Kind,
) -> Result<Value, FrontErr>
    ensures { (s : the_state.State) → Answers operand (spec.kind_port x.now port.now k name.now.name (Some kind.now) s) result s }
{
    match kind {
        Kind::Reg { .. } => Err(broken_name(alloc, Rule::S6, x)),
        Kind::Array { .. } => Err(broken_name(alloc, Rule::S6, x)),
        Kind::Ram { .. } => Err(broken_name(alloc, Rule::S6, x)),
        Kind::Rom { .. } => Err(broken_name(alloc, Rule::S6, x)),
        Kind::Signal { .. } => Err(broken_name(alloc, Rule::S6, x)),
        Kind::Chan { .. } => Err(broken_name(alloc, Rule::S6, x)),
        Kind::Input { .. } => {
            if name.name.as_bytes() == port.name.as_bytes() {
                Ok(Value::Typed(Expr::Input(k)))
            } else {
                Err(broken_name(alloc, Rule::S4, port))
            }
        }
        Kind::Output { .. } => Err(broken_name(alloc, Rule::S6, x)),
    }
}

impl<
    F: Copy
        + for<'s, 't> Fn(
            Global,
            &mut State,
            &Scope<'s, 't>,
            u32,
            u32,
            &'t ExprTree,
        ) -> Result<Value, FrontErr>,
    G: Copy,
> Parts<F, G> {
    // A number, as a node of its own.
    #[tactic(auto, using(crate::proofs::Depth::number_is))]
    pub(crate) fn number<'s, 't>(
        &self,
        state: &mut State,
        scope: &Scope<'s, 't>,
        calls: u32,
        place: Place,
        value: u128,
    ) -> Result<Value, FrontErr>
        requires nests { Nests self.now.room (F.pre self.now.expression) (F.post self.now.expression) }
        requires sound { AreSound (kinds_of state.old.objects) }
        ensures answers { Answers operand ((nodes self.now.room).expression (context_of scope.now calls) (e.Number place value) state.old) result state.new }
        ensures typed { IfOk result (λ v. IsOperand (kinds_of state.old.objects) (operand v)) }
        ensures objects { state.new.objects ≡ state.old.objects }
    {
        match enter(state, false, calls, place, self.room) {
            Ok(()) => Ok(Value::Constant(Whole::from_number(value))),
            Err(e) => Err(e),
        }
    }

    // A name, as a node of its own.
    #[tactic(auto, using(crate::proofs::Depth::name_is))]
    pub(crate) fn name<'s, 't>(
        &self,
        state: &mut State,
        scope: &Scope<'s, 't>,
        calls: u32,
        x: &'t Ident,
    ) -> Result<Value, FrontErr>
        requires nests { Nests self.now.room (F.pre self.now.expression) (F.post self.now.expression) }
        requires sound { AreSound (kinds_of state.old.objects) }
        ensures answers { Answers operand ((nodes self.now.room).expression (context_of scope.now calls) (e.Name x.now) state.old) result state.new }
        ensures typed { IfOk result (λ v. IsOperand (kinds_of state.old.objects) (operand v)) }
        ensures objects { state.new.objects ≡ state.old.objects }
    {
        match enter(
            state,
            is_macro(scope, x.name.as_bytes()),
            calls,
            x.place,
            self.room,
        ) {
            Ok(()) => self.inner().name_value(state, scope, calls, x),
            Err(e) => Err(e),
        }
    }

    // A name alone.
    #[tactic(auto, unfolding(hc_scope::specs::Expression::name_value))]
    pub(crate) fn name_value<'s, 't>(
        &self,
        state: &mut State,
        scope: &Scope<'s, 't>,
        calls: u32,
        x: &'t Ident,
    ) -> Result<Value, FrontErr>
        requires nests { Nests self.now.room (F.pre self.now.expression) (F.post self.now.expression) }
        requires sound { AreSound (kinds_of state.old.objects) }
        requires few { spec.is_macro (find x.now.name (scope_of scope.now)) ≡ true → calls < 200 }
        ensures answers { Answers operand (spec.name_value (nodes self.now.room) (context_of scope.now calls) x.now state.old) result state.new }
        ensures typed { IfOk result (λ v. IsOperand (kinds_of state.old.objects) (operand v)) }
        ensures objects { state.new.objects ≡ state.old.objects }
    {
        match find(scope, x.name.as_bytes()) {
            Some(found) => self.found_value(state, scope, calls, x, &found),
            None => Err(broken_name(self.alloc, Rule::S4, x)),
        }
    }

    // What a name alone stands for.
    pub(crate) fn found_value<'s, 't>(
        &self,
        state: &mut State,
        scope: &Scope<'s, 't>,
        calls: u32,
        x: &'t Ident,
        found: &Found<'_, 't>,
    ) -> Result<Value, FrontErr>
        requires nests { Nests self.now.room (F.pre self.now.expression) (F.post self.now.expression) }
        requires sound { AreSound (kinds_of state.old.objects) }
        requires few { spec.is_macro_expression (meaning_of found.now.meaning) ≡ true → calls < 200 }
        ensures answers { Answers operand (spec.value_by (nodes self.now.room) (context_of scope.now calls) x.now (scope_of found.now.scope) (meaning_of found.now.meaning) state.old) result state.new }
        ensures typed { IfOk result (λ v. IsOperand (kinds_of state.old.objects) (operand v)) }
        ensures objects { state.new.objects ≡ state.old.objects }
    {
        match &found.meaning {
            Meaning::Object(k) => object_value(self.alloc, state, x, *k),
            Meaning::Interface(_, _) => Err(broken_name(self.alloc, Rule::S6, x)),
            Meaning::Number(v) => Ok(Value::Constant(**v)),
            Meaning::Expression(parameters, body) => {
                let none = no_arguments(parameters);
                self.call_expression(state, scope, calls, x, parameters, body, &found.scope, none)
            }
            Meaning::Procedure(_, _) => Err(broken_name(self.alloc, Rule::S6, x)),
            Meaning::Argument(argument, call) => self.expression(state, call, calls, argument),
        }
    }

    // A name with arguments.
    #[tactic(auto, unfolding(hc_scope::specs::Expression::call))]
    pub(crate) fn call<'s, 't>(
        &self,
        state: &mut State,
        scope: &Scope<'s, 't>,
        calls: u32,
        x: &'t Ident,
        arguments: &'t [ExprTree],
    ) -> Result<Value, FrontErr>
        requires nests { Nests self.now.room (F.pre self.now.expression) (F.post self.now.expression) }
        requires sound { AreSound (kinds_of state.old.objects) }
        requires few { calls < 200 }
        ensures answers { Answers operand (spec.call (nodes self.now.room) (context_of scope.now calls) x.now arguments.now state.old) result state.new }
        ensures typed { IfOk result (λ v. IsOperand (kinds_of state.old.objects) (operand v)) }
        ensures objects { state.new.objects ≡ state.old.objects }
    {
        match find(scope, x.name.as_bytes()) {
            Some(found) => self.found_call(state, scope, calls, x, arguments, &found),
            None => Err(broken_name(self.alloc, Rule::S4, x)),
        }
    }

    // What a name with arguments stands for.
    pub(crate) fn found_call<'s, 't>(
        &self,
        state: &mut State,
        scope: &Scope<'s, 't>,
        calls: u32,
        x: &'t Ident,
        arguments: &'t [ExprTree],
        found: &Found<'_, 't>,
    ) -> Result<Value, FrontErr>
        requires nests { Nests self.now.room (F.pre self.now.expression) (F.post self.now.expression) }
        requires sound { AreSound (kinds_of state.old.objects) }
        requires few { calls < 200 }
        ensures answers { Answers operand (spec.called_by (nodes self.now.room) (context_of scope.now calls) x.now arguments.now (scope_of found.now.scope) (meaning_of found.now.meaning) state.old) result state.new }
        ensures typed { IfOk result (λ v. IsOperand (kinds_of state.old.objects) (operand v)) }
        ensures objects { state.new.objects ≡ state.old.objects }
    {
        match &found.meaning {
            Meaning::Object(_) => Err(broken_name(self.alloc, Rule::S6, x)),
            Meaning::Interface(_, _) => Err(broken_name(self.alloc, Rule::S6, x)),
            Meaning::Number(_) => Err(broken_name(self.alloc, Rule::S6, x)),
            Meaning::Expression(parameters, body) => self.call_expression(
                state,
                scope,
                calls,
                x,
                parameters,
                body,
                &found.scope,
                arguments,
            ),
            Meaning::Procedure(_, _) => Err(broken_name(self.alloc, Rule::S6, x)),
            Meaning::Argument(_, _) => Err(broken_name(self.alloc, Rule::S6, x)),
        }
    }

    // The body of a macro expression, with its parameters bound to arguments.
    #[tactic(auto, unfolding(hc_scope::specs::Expression::call_expression))]
    pub(crate) fn call_expression<'s, 't>(
        &self,
        state: &mut State,
        scope: &Scope<'s, 't>,
        calls: u32,
        x: &'t Ident,
        parameters: &'t [Ident],
        body: &'t ExprTree,
        around: &Scope<'_, 't>,
        arguments: &'t [ExprTree],
    ) -> Result<Value, FrontErr>
        requires nests { Nests self.now.room (F.pre self.now.expression) (F.post self.now.expression) }
        requires sound { AreSound (kinds_of state.old.objects) }
        requires few { calls < 200 }
        ensures answers { Answers operand (spec.call_expression (nodes self.now.room) (context_of scope.now calls) x.now parameters.now body.now (scope_of around.now) arguments.now state.old) result state.new }
        ensures typed { IfOk result (λ v. IsOperand (kinds_of state.old.objects) (operand v)) }
        ensures objects { state.new.objects ≡ state.old.objects }
    {
        match call_scope(self.alloc, scope, x, parameters, around, arguments) {
            Ok(inner) => self.expression(state, &inner, calls + 1, body),
            Err(e) => Err(e),
        }
    }
}

// No arguments, as those of a macro that is named without brackets, for as long as its parameters stand.
fn no_arguments<'t>(_parameters: &'t [Ident]) -> &'t [ExprTree]
    ensures { result.now ≡ [] }
{
    &[]
}
