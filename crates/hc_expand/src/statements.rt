ghost use Rattle.std.specs.Prelude.{◌≡◌, ◌≤◌, ◌-◌, IfOk, OnOk};
ghost use Rattle.hc_core.specs.Read.{statement};
ghost use Rattle.hc_core.specs.Sound.{IsTyped};
ghost use Rattle.hc_core.specs.Typed.{kinds_of};
ghost use Rattle.hc_scope.specs.Nodes.{nodes};
ghost use Rattle.hc_scope.specs.Reading.{context_of, Answers};
ghost use Rattle.hc_expand.specs.Runs.{Runs};
ghost use Rattle.hc_scope.specs.Sound.{AreSound, Grows};

use hc_core::Stmt;
use hc_scope::{Scope, State};
use hc_tree as tree;
use hc_tree::FrontErr;
use std::alloc::Global;

// How the statements in a statement are expanded, around which `room` more nodes may be open. The forms of statements take
// this as a parameter, so that each is proved by itself.
#[derive(Clone, Copy)]
pub(crate) struct Statements<F> {
    pub(crate) alloc: Global,
    pub(crate) room: u32,
    pub(crate) statement: F,
}

impl<F: Copy> Statements<F> {
    // The statements of a part, which stand one deeper.
    pub(crate) fn inner(&self) -> Statements<F>
        requires { 1 ≤ self.now.room }
        ensures room { result.room ≡ self.now.room - 1 }
        ensures statement { result.statement ≡ self.now.statement }
    {
        Statements {
            alloc: self.alloc,
            room: self.room - 1,
            statement: self.statement,
        }
    }
}

impl<
    F: Copy
        + for<'s, 't> Fn(
            Global,
            &mut State,
            &'s Scope<'s, 't>,
            u32,
            u32,
            &'t tree::Stmt,
        ) -> Result<Stmt, FrontErr>,
> Statements<F> {
    // A statement.
    pub(crate) fn statement<'s, 't>(
        &self,
        state: &mut State,
        scope: &'s Scope<'s, 't>,
        calls: u32,
        s: &'t tree::Stmt,
    ) -> Result<Stmt, FrontErr>
        requires runs { Runs self.now.room (F.pre self.now.statement) (F.post self.now.statement) }
        requires sound { AreSound (kinds_of state.old.objects) }
        ensures answers { Answers statement ((nodes self.now.room).statement (context_of scope.now calls) s.now state.old) result state.new }
        ensures typed { IfOk result (λ v. IsTyped (kinds_of state.new.objects) (statement v)) }
        ensures grows { OnOk result (Grows state.old.objects state.new.objects) }
    {
        (self.statement)(self.alloc, state, scope, calls, self.room, s)
    }
}
