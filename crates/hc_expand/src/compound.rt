ghost use Rattle.std.specs.Prelude.{◌≡◌, IfOk, OnOk};
ghost use Rattle.hc_core.specs.Read.{statement};
ghost use Rattle.hc_core.specs.Sound.{IsTyped};
ghost use Rattle.hc_core.specs.Typed.{kinds_of};
ghost use Rattle.hc_scope.specs.Nodes.{nodes};
ghost use Rattle.hc_scope.specs.Reading.{context_of, Answers};
ghost use Rattle.hc_expand.specs.Runs.{Runs};
ghost use Rattle.hc_scope.specs.Sound.{AreSound, Grows};
ghost use Rattle.hc_scope.specs.Statement as spec;
ghost use Rattle.hc_tree.specs.declared.stmt.LocalItem.TheOpen.{Stmt-F};

use crate::statements::Statements;
use hc_core::Stmt;
use hc_scope::{Scope, State};
use hc_tree as tree;
use hc_tree::{Block, FrontErr, Place};
use std::alloc::Global;

impl<
    F: Copy
        + for<'s, 't> Fn(
            Global,
            &mut State,
            &'s Scope<'s, 't>,
            u32,
            u32,
            &'t tree::Stmt,
        ) -> Result<Stmt, FrontErr>,
> Statements<F> {
    // A block as a sequence.
    #[tactic(auto, using(hc_evaluate::proofs::Steps::err_then, hc_evaluate::proofs::Steps::value_then, crate::proofs::Listed::read_sequence, crate::proofs::Listed::sequence_typed))]
    pub(crate) fn sequence<'s, 't>(
        &self,
        state: &mut State,
        scope: &'s Scope<'s, 't>,
        calls: u32,
        place: Place,
        b: &'t Block,
    ) -> Result<Stmt, FrontErr>
        requires runs { Runs self.now.room (F.pre self.now.statement) (F.post self.now.statement) }
        requires sound { AreSound (kinds_of state.old.objects) }
        ensures answers { Answers statement (spec.statement_layer (nodes self.now.room) (context_of scope.now calls) (Stmt-F.Seq place b.now) state.old) result state.new }
        ensures typed { IfOk result (λ s. IsTyped (kinds_of state.new.objects) (statement s)) }
        ensures grows { OnOk result (Grows state.old.objects state.new.objects) }
    {
        match self.block_form(state, scope, calls, b) {
            Ok(parts) => Ok(Stmt::Seq { place, parts }),
            Err(e) => Err(e),
        }
    }

    // A block whose statements are branches.
    #[tactic(auto, using(hc_evaluate::proofs::Steps::err_then, hc_evaluate::proofs::Steps::value_then, crate::proofs::Listed::read_parallel, crate::proofs::Listed::parallel_typed))]
    pub(crate) fn parallel<'s, 't>(
        &self,
        state: &mut State,
        scope: &'s Scope<'s, 't>,
        calls: u32,
        place: Place,
        b: &'t Block,
    ) -> Result<Stmt, FrontErr>
        requires runs { Runs self.now.room (F.pre self.now.statement) (F.post self.now.statement) }
        requires sound { AreSound (kinds_of state.old.objects) }
        ensures answers { Answers statement (spec.statement_layer (nodes self.now.room) (context_of scope.now calls) (Stmt-F.Par place b.now) state.old) result state.new }
        ensures typed { IfOk result (λ s. IsTyped (kinds_of state.new.objects) (statement s)) }
        ensures grows { OnOk result (Grows state.old.objects state.new.objects) }
    {
        match self.block_form(state, scope, calls, b) {
            Ok(branches) => Ok(Stmt::Par { place, branches }),
            Err(e) => Err(e),
        }
    }
}
