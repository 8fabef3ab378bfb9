ghost use Rattle.std.specs.Prelude.{◌≡◌, ◌≤◌, ◌-◌, IfOk};
ghost use Rattle.hc_core.specs.Typed.{kinds_of};
ghost use Rattle.hc_width.specs.Operand.{operand, IsOperand};
ghost use Rattle.hc_evaluate.specs.Nests.{Nests, Shows};
ghost use Rattle.hc_scope.specs.Nodes.{nodes};
ghost use Rattle.hc_scope.specs.Reading.{context_of, shown_of, Answers};
ghost use Rattle.hc_scope.specs.Sound.{AreSound, IsShown};

use hc_scope::{Scope, Shown, State};
use hc_tree::{ExprTree, FrontErr};
use hc_width::Value;
use std::alloc::Global;

// How the parts of an expression are expanded, around which `room` more nodes may be open. The forms of expressions take
// this as a parameter, so that each is proved by itself.
#[derive(Clone, Copy)]
pub(crate) struct Parts<F, G> {
    pub(crate) alloc: Global,
    pub(crate) room: u32,
    pub(crate) expression: F,
    pub(crate) before_index: G,
}

impl<F: Copy, G: Copy> Parts<F, G> {
    // The parts of a part, which stand one deeper.
    pub(crate) fn inner(&self) -> Parts<F, G>
        requires { 1 ≤ self.now.room }
        ensures room { result.room ≡ self.now.room - 1 }
        ensures expression { result.expression ≡ self.now.expression }
        ensures before_index { result.before_index ≡ self.now.before_index }
    {
        Parts {
            alloc: self.alloc,
            room: self.room - 1,
            expression: self.expression,
            before_index: self.before_index,
        }
    }
}

impl<
    F: Copy
        + for<'s, 't> Fn(
            Global,
            &mut State,
            &Scope<'s, 't>,
            u32,
            u32,
            &'t ExprTree,
        ) -> Result<Value, FrontErr>,
    G: Copy,
> Parts<F, G> {
    // The value of a part.
    pub(crate) fn expression<'s, 't>(
        &self,
        state: &mut State,
        scope: &Scope<'s, 't>,
        calls: u32,
        e: &'t ExprTree,
    ) -> Result<Value, FrontErr>
        requires nests { Nests self.now.room (F.pre self.now.expression) (F.post self.now.expression) }
        requires sound { AreSound (kinds_of state.old.objects) }
        ensures answers { Answers operand ((nodes self.now.room).expression (context_of scope.now calls) e.now state.old) result state.new }
        ensures typed { IfOk result (λ v. IsOperand (kinds_of state.old.objects) (operand v)) }
        ensures objects { state.new.objects ≡ state.old.objects }
    {
        (self.expression)(self.alloc, state, scope, calls, self.room, e)
    }
}

impl<
    F: Copy,
    G: Copy
        + for<'s, 't> Fn(
            Global,
            &mut State,
            &Scope<'s, 't>,
            u32,
            u32,
            &'t ExprTree,
        ) -> Result<Shown, FrontErr>,
> Parts<F, G> {
    // What a part before an index stands for.
    pub(crate) fn before_index<'s, 't>(
        &self,
        state: &mut State,
        scope: &Scope<'s, 't>,
        calls: u32,
        e: &'t ExprTree,
    ) -> Result<Shown, FrontErr>
        requires nests { Shows self.now.room (G.pre self.now.before_index) (G.post self.now.before_index) }
        requires sound { AreSound (kinds_of state.old.objects) }
        ensures answers { Answers shown_of ((nodes self.now.room).before_index (context_of scope.now calls) e.now state.old) result state.new }
        ensures typed { IfOk result (λ v. IsShown (kinds_of state.old.objects) (shown_of v)) }
        ensures objects { state.new.objects ≡ state.old.objects }
    {
        (self.before_index)(self.alloc, state, scope, calls, self.room, e)
    }
}
