ghost use Rattle.std.specs.Prelude.{◌≡◌, IfOk, OnOk};
ghost use Rattle.hc_core.specs.Read.{statements};
ghost use Rattle.hc_core.specs.Sound.{AllTyped};
ghost use Rattle.hc_core.specs.Typed.{kinds_of};
ghost use Rattle.hc_expand.specs.Forms.{parts_read};
ghost use Rattle.hc_scope.specs.Nodes.{nodes};
ghost use Rattle.hc_scope.specs.Reading.{context_of, Answers};
ghost use Rattle.hc_expand.specs.Runs.{Runs};
ghost use Rattle.hc_scope.specs.Sound.{AreSound, Grows};
ghost use Rattle.hc_scope.specs.Statement as spec;

use crate::statements::Statements;
use hc_core::{Stmt, Stmts};
use hc_declare::locals;
use hc_scope::{Names, Scope, State, all_of, enter};
use hc_tree as tree;
use hc_tree::{Block, FrontErr};
use std::alloc::Global;

impl<
    F: Copy
        + for<'s, 't> Fn(
            Global,
            &mut State,
            &'s Scope<'s, 't>,
            u32,
            u32,
            &'t tree::Stmt,
        ) -> Result<Stmt, FrontErr>,
> Statements<F> {
    // The statements of a block, which is a node.
    #[tactic(auto, using(crate::proofs::StatementNodes::block_is, crate::proofs::StatementNodes::runs_inside))]
    pub(crate) fn block<'s, 't>(
        &self,
        state: &mut State,
        scope: &'s Scope<'s, 't>,
        calls: u32,
        b: &'t Block,
    ) -> Result<Stmts, FrontErr>
        requires runs { Runs self.now.room (F.pre self.now.statement) (F.post self.now.statement) }
        requires sound { AreSound (kinds_of state.old.objects) }
        ensures answers { Answers parts_read ((nodes self.now.room).block (context_of scope.now calls) b.now state.old) result state.new }
        ensures typed { IfOk result (λ parts. AllTyped (kinds_of state.new.objects) (statements parts)) }
        ensures grows { OnOk result (Grows state.old.objects state.new.objects) }
    {
        match enter(state, false, calls, b.place, self.room) {
            Ok(()) => self.inner().block_form(state, scope, calls, b),
            Err(e) => Err(e),
        }
    }

    // The statements of a block, which is a scope.
    #[tactic(auto, using(hc_evaluate::proofs::Steps::err_then, hc_evaluate::proofs::Steps::value_then, hc_scope::proofs::Longer::grows_on), unfolding(hc_scope::specs::Statement::block_form))]
    pub(crate) fn block_form<'s, 't>(
        &self,
        state: &mut State,
        scope: &'s Scope<'s, 't>,
        calls: u32,
        b: &'t Block,
    ) -> Result<Stmts, FrontErr>
        requires runs { Runs self.now.room (F.pre self.now.statement) (F.post self.now.statement) }
        requires sound { AreSound (kinds_of state.old.objects) }
        ensures answers { Answers parts_read (spec.block_form (nodes self.now.room) (context_of scope.now calls) b.now state.old) result state.new }
        ensures typed { IfOk result (λ parts. AllTyped (kinds_of state.new.objects) (statements parts)) }
        ensures grows { OnOk result (Grows state.old.objects state.new.objects) }
    {
        let mut names = Names::new(self.alloc);
        let items = b.declared.as_slice();
        match locals(
            self.alloc, state, &mut names, scope, calls, self.room, items,
        ) {
            Ok(()) => self.each(state, &all_of(&names, scope), calls, b.stmts.as_slice()),
            Err(e) => Err(e),
        }
    }
}
