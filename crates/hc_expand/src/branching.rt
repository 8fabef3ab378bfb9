ghost use Rattle.std.specs.Prelude.{◌≡◌, IfOk, OnOk};
ghost use Rattle.hc_core.specs.Program as core;
ghost use Rattle.hc_core.specs.Read.{expression, statement};
ghost use Rattle.hc_core.specs.Sound.{IsTyped};
ghost use Rattle.hc_core.specs.Typed.{HasSomeType, kinds_of};
ghost use Rattle.hc_expand.specs.Forms.{IsMade, AreBothTyped, both, both_read, if_branches};
ghost use Rattle.hc_scope.specs.Nodes.{nodes};
ghost use Rattle.hc_scope.specs.Reading.{context_of, Answers};
ghost use Rattle.hc_expand.specs.Runs.{Runs};
ghost use Rattle.hc_scope.specs.Sound.{AreSound, Grows};
ghost use Rattle.hc_scope.specs.Statement as spec;
ghost use Rattle.hc_tree.specs.declared.place.Place as the_place;
ghost use Rattle.hc_tree.specs.declared.stmt.Condition.TheVariants as word;
ghost use Rattle.hc_tree.specs.declared.stmt.LocalItem.TheOpen.{Stmt-F};

use crate::statements::Statements;
use hc_core::{Expr, Stmt};
use hc_evaluate as of;
use hc_evaluate::condition;
use hc_scope::{Scope, State};
use hc_tree as tree;
use hc_tree::{ExprTree, FrontErr, Place};
use sqlite_items::Boxed;
use std::alloc::Global;

/// Both branches of an `if`.
#[derive(Drop)]
pub(crate) struct IfParts {
    pub(crate) chosen: Stmt,
    pub(crate) other: Stmt,
}

impl<
    F: Copy
        + for<'s, 't> Fn(
            Global,
            &mut State,
            &'s Scope<'s, 't>,
            u32,
            u32,
            &'t tree::Stmt,
        ) -> Result<Stmt, FrontErr>,
> Statements<F> {
    // A statement that may be left out.
    #[tactic(auto, using(hc_core::proofs::Read::reading, hc_scope::proofs::Longer::grows_not))]
    pub(crate) fn statement_or_skip<'s, 't>(
        &self,
        state: &mut State,
        scope: &'s Scope<'s, 't>,
        calls: u32,
        s: &'t Option<Boxed<tree::Stmt>>,
    ) -> Result<Stmt, FrontErr>
        requires runs { Runs self.now.room (F.pre self.now.statement) (F.post self.now.statement) }
        requires sound { AreSound (kinds_of state.old.objects) }
        ensures answers { Answers statement (spec.statement_or_skip (nodes self.now.room) (context_of scope.now calls) s.now state.old) result state.new }
        ensures typed { IfOk result (λ s. IsTyped (kinds_of state.new.objects) (statement s)) }
        ensures grows { OnOk result (Grows state.old.objects state.new.objects) }
    {
        match s {
            Some(s) => self.statement(state, scope, calls, s.get()),
            None => Ok(Stmt::Skip),
        }
    }

    // `if`, with both branches.
    #[tactic(auto, using(hc_evaluate::proofs::Steps::err_then, hc_evaluate::proofs::Steps::value_then, crate::proofs::Made::as_before))]
    pub(crate) fn if_statement<'s, 't>(
        &self,
        state: &mut State,
        scope: &'s Scope<'s, 't>,
        calls: u32,
        place: Place,
        e: &'t ExprTree,
        yes: &'t tree::Stmt,
        no: &'t Option<Boxed<tree::Stmt>>,
    ) -> Result<Stmt, FrontErr>
        requires runs { Runs self.now.room (F.pre self.now.statement) (F.post self.now.statement) }
        requires sound { AreSound (kinds_of state.old.objects) }
        ensures answers { Answers statement (spec.statement_layer (nodes self.now.room) (context_of scope.now calls) (Stmt-F.If place word.If e.now yes.now no.now) state.old) result state.new }
        ensures typed { IfOk result (λ s. IsTyped (kinds_of state.new.objects) (statement s)) }
        ensures grows { OnOk result (Grows state.old.objects state.new.objects) }
    {
        match of::expression(self.alloc, state, scope, calls, self.room, e) {
            Ok(v) => self.if_branches(state, scope, calls, place, condition(v), yes, no),
            Err(e) => Err(e),
        }
    }

    // An `if` behind its condition.
    #[tactic(auto, using(crate::proofs::Made::if_typed))]
    fn if_branches<'s, 't>(
        &self,
        state: &mut State,
        scope: &'s Scope<'s, 't>,
        calls: u32,
        place: Place,
        condition: Expr,
        yes: &'t tree::Stmt,
        no: &'t Option<Boxed<tree::Stmt>>,
    ) -> Result<Stmt, FrontErr>
        requires runs { Runs self.now.room (F.pre self.now.statement) (F.post self.now.statement) }
        requires sound { AreSound (kinds_of state.old.objects) }
        requires condition { HasSomeType (kinds_of state.old.objects) (expression condition) }
        ensures answers { Answers statement (if_branches (nodes self.now.room) (context_of scope.now calls) place (expression condition) yes.now no.now state.old) result state.new }
        ensures typed { IfOk result (λ s. IsTyped (kinds_of state.new.objects) (statement s)) }
        ensures grows { OnOk result (Grows state.old.objects state.new.objects) }
    {
        match self.both(state, scope, calls, yes, no) {
            Ok(b) => branches(self.alloc, place, condition, b),
            Err(e) => {
                drop(condition);
                Err(e)
            }
        }
    }

    // Both branches of an `if`.
    #[tactic(auto, using(hc_evaluate::proofs::Steps::err_then, hc_evaluate::proofs::Steps::value_then, hc_scope::proofs::Longer::grows_on, crate::proofs::Kept::grown_statement))]
    fn both<'s, 't>(
        &self,
        state: &mut State,
        scope: &'s Scope<'s, 't>,
        calls: u32,
        yes: &'t tree::Stmt,
        no: &'t Option<Boxed<tree::Stmt>>,
    ) -> Result<IfParts, FrontErr>
        requires runs { Runs self.now.room (F.pre self.now.statement) (F.post self.now.statement) }
        requires sound { AreSound (kinds_of state.old.objects) }
        ensures answers { Answers both_read (both (nodes self.now.room) (context_of scope.now calls) yes.now no.now state.old) result state.new }
        ensures typed { IfOk result (λ b. AreBothTyped (kinds_of state.new.objects) (both_read b)) }
        ensures grows { OnOk result (Grows state.old.objects state.new.objects) }
    {
        match self.statement(state, scope, calls, yes) {
            Ok(chosen) => match self.statement_or_skip(state, scope, calls, no) {
                Ok(other) => Ok(IfParts { chosen, other }),
                Err(e) => {
                    drop(chosen);
                    Err(e)
                }
            },
            Err(e) => Err(e),
        }
    }

    // `ifselect`: the chosen side alone.
    #[tactic(auto, using(hc_evaluate::proofs::Steps::err_then, hc_evaluate::proofs::Steps::value_then))]
    pub(crate) fn if_select<'s, 't>(
        &self,
        state: &mut State,
        scope: &'s Scope<'s, 't>,
        calls: u32,
        e: &'t ExprTree,
        yes: &'t tree::Stmt,
        no: &'t Option<Boxed<tree::Stmt>>,
    ) -> Result<Stmt, FrontErr>
        requires runs { Runs self.now.room (F.pre self.now.statement) (F.post self.now.statement) }
        requires sound { AreSound (kinds_of state.old.objects) }
        ensures answers { (place : the_place.Place) → Answers statement (spec.statement_layer (nodes self.now.room) (context_of scope.now calls) (Stmt-F.If place word.IfSelect e.now yes.now no.now) state.old) result state.new }
        ensures typed { IfOk result (λ s. IsTyped (kinds_of state.new.objects) (statement s)) }
        ensures grows { OnOk result (Grows state.old.objects state.new.objects) }
    {
        match of::constant(self.alloc, state, scope, calls, self.room, e) {
            Ok(v) => {
                if v.holds() {
                    self.statement(state, scope, calls, yes)
                } else {
                    self.statement_or_skip(state, scope, calls, no)
                }
            }
            Err(e) => Err(e),
        }
    }
}

// An `if` of its parts.
#[tactic(auto, using(hc_core::proofs::Read::reading))]
fn branches(alloc: Global, place: Place, condition: Expr, b: IfParts) -> Result<Stmt, FrontErr>
    ensures { IsMade (core.If place (expression condition) (statement b.chosen) (statement b.other)) result }
{
    match Boxed::new(alloc, b.chosen) {
        Ok(yes) => match Boxed::new(alloc, b.other) {
            Ok(no) => Ok(Stmt::If {
                place,
                condition,
                yes,
                no,
            }),
            Err(_) => {
                drop(yes);
                drop(condition);
                Err(FrontErr::NoMemory)
            }
        },
        Err(_) => {
            drop(b.other);
            drop(condition);
            Err(FrontErr::NoMemory)
        }
    }
}
