ghost use Rattle.std.specs.Prelude.{IfOk, OnOk, map, Some, None};
ghost use Rattle.hc_core.specs.Read.{statement, cases, case_before};
ghost use Rattle.hc_core.specs.Sound.{IsTyped, CasesTyped};
ghost use Rattle.hc_core.specs.Typed.{kinds_of};
ghost use Rattle.hc_scope.specs.Expansion.{each};
ghost use Rattle.hc_scope.specs.Nodes.{nodes};
ghost use Rattle.hc_scope.specs.Reading.{context_of, Answers};
ghost use Rattle.hc_expand.specs.Runs.{Runs};
ghost use Rattle.hc_scope.specs.Sound.{AreSound, Grows};
ghost use Rattle.hc_scope.specs.Statement as spec;

use crate::statements::Statements;
use hc_core::{Cases, Stmt};
use hc_scope::{Scope, State, enter};
use hc_tree as tree;
use hc_tree::{FrontErr, Other, Place};
use sqlite_items::{Boxed, Items};
use std::alloc::Global;

impl<
    F: Copy
        + for<'s, 't> Fn(
            Global,
            &mut State,
            &'s Scope<'s, 't>,
            u32,
            u32,
            &'t tree::Stmt,
        ) -> Result<Stmt, FrontErr>,
> Statements<F> {
    // A `prialt`.
    pub(crate) fn prialt<'s, 't>(
        &self,
        state: &mut State,
        scope: &'s Scope<'s, 't>,
        calls: u32,
        place: Place,
        all: &'t [tree::Case],
        other: &'t Option<Other>,
    ) -> Result<Stmt, FrontErr>
        requires runs { Runs self.now.room (F.pre self.now.statement) (F.post self.now.statement) }
        requires sound { AreSound (kinds_of state.old.objects) }
        ensures answers { Answers statement (spec.prialt (nodes self.now.room) (context_of scope.now calls) place all.now other.now state.old) result state.new }
        ensures typed { IfOk result (λ v. IsTyped (kinds_of state.new.objects) (statement v)) }
        ensures grows { OnOk result (Grows state.old.objects state.new.objects) }
    {
        match other {
            Some(other) => self.prialt_else(state, &*scope, calls, place, all, other),
            None => self.prialt_alone(state, &*scope, calls, place, all),
        }
    }

    // A `prialt` without default.
    #[tactic(auto, using(hc_evaluate::proofs::Steps::err_then, hc_evaluate::proofs::Steps::value_then, crate::proofs::Branches::read_prialt, crate::proofs::Branches::prialt_typed))]
    fn prialt_alone<'s, 't>(
        &self,
        state: &mut State,
        scope: &'s Scope<'s, 't>,
        calls: u32,
        place: Place,
        all: &'t [tree::Case],
    ) -> Result<Stmt, FrontErr>
        requires runs { Runs self.now.room (F.pre self.now.statement) (F.post self.now.statement) }
        requires sound { AreSound (kinds_of state.old.objects) }
        ensures answers { Answers statement (spec.prialt (nodes self.now.room) (context_of scope.now calls) place all.now None state.old) result state.new }
        ensures typed { IfOk result (λ v. IsTyped (kinds_of state.new.objects) (statement v)) }
        ensures grows { OnOk result (Grows state.old.objects state.new.objects) }
    {
        match self.cases(state, &*scope, calls, all) {
            Ok(cases) => Ok(Stmt::Prialt {
                place,
                cases,
                rest: None,
            }),
            Err(e) => Err(e),
        }
    }

    // A `prialt` with a default.
    #[tactic(auto, using(hc_evaluate::proofs::Steps::err_then, hc_evaluate::proofs::Steps::value_then, hc_scope::proofs::Longer::grows_on, crate::proofs::Branches::read_prialt_else, crate::proofs::Branches::prialt_else_typed))]
    fn prialt_else<'s, 't>(
        &self,
        state: &mut State,
        scope: &'s Scope<'s, 't>,
        calls: u32,
        place: Place,
        all: &'t [tree::Case],
        other: &'t Other,
    ) -> Result<Stmt, FrontErr>
        requires runs { Runs self.now.room (F.pre self.now.statement) (F.post self.now.statement) }
        requires sound { AreSound (kinds_of state.old.objects) }
        ensures answers { Answers statement (spec.prialt (nodes self.now.room) (context_of scope.now calls) place all.now (Some other.now) state.old) result state.new }
        ensures typed { IfOk result (λ v. IsTyped (kinds_of state.new.objects) (statement v)) }
        ensures grows { OnOk result (Grows state.old.objects state.new.objects) }
    {
        match self.cases(state, &*scope, calls, all) {
            Ok(cases) => match self.other(state, &*scope, calls, other) {
                Ok(rest) => match Boxed::new(self.alloc, rest) {
                    Ok(rest) => Ok(Stmt::Prialt {
                        place,
                        cases,
                        rest: Some(rest),
                    }),
                    Err(_) => {
                        drop(cases);
                        Err(FrontErr::NoMemory)
                    }
                },
                Err(e) => {
                    drop(cases);
                    Err(e)
                }
            },
            Err(e) => Err(e),
        }
    }

    // The cases of a `prialt` one after another.
    #[tactic(auto, using(crate::proofs::Each::along_start, crate::proofs::Each::along_more, crate::proofs::Each::along_err, crate::proofs::Each::along_end, hc_scope::proofs::Longer::grows_not, hc_scope::proofs::Longer::grows_on, crate::proofs::Branches::no_cases))]
    fn cases<'s, 't>(
        &self,
        state: &mut State,
        scope: &'s Scope<'s, 't>,
        calls: u32,
        all: &'t [tree::Case],
    ) -> Result<Cases, FrontErr>
        requires runs { Runs self.now.room (F.pre self.now.statement) (F.post self.now.statement) }
        requires sound { AreSound (kinds_of state.old.objects) }
        ensures answers { Answers (map case_before) (each ((nodes self.now.room).case (context_of scope.now calls)) all.now state.old) result state.new }
        ensures typed { IfOk result (λ v. CasesTyped (kinds_of state.new.objects) (cases v)) }
        ensures grows { OnOk result (Grows state.old.objects state.new.objects) }
    {
        let mut done = Items::new(self.alloc);
        let mut rest = all;
        'each: while let [first, behind @ ..] = rest {
            match self.case(state, &*scope, calls, first) {
                Ok(made) => match done.push(made) {
                    Ok(()) => {}
                    Err(_) => {
                        drop(done);
                        return Err(FrontErr::NoMemory);
                    }
                },
                Err(e) => {
                    drop(done);
                    return Err(e);
                }
            }
            rest = behind;
        }
        Ok(done)
    }

    // The default, as a node.
    #[tactic(auto, using(hc_evaluate::proofs::PartNodes::other_is, crate::proofs::StatementNodes::runs_inside))]
    fn other<'s, 't>(
        &self,
        state: &mut State,
        scope: &'s Scope<'s, 't>,
        calls: u32,
        x: &'t Other,
    ) -> Result<Stmt, FrontErr>
        requires runs { Runs self.now.room (F.pre self.now.statement) (F.post self.now.statement) }
        requires sound { AreSound (kinds_of state.old.objects) }
        ensures answers { Answers statement ((nodes self.now.room).other (context_of scope.now calls) x.now state.old) result state.new }
        ensures typed { IfOk result (λ v. IsTyped (kinds_of state.new.objects) (statement v)) }
        ensures grows { OnOk result (Grows state.old.objects state.new.objects) }
    {
        match enter(state, false, calls, x.place, self.room) {
            Ok(()) => self.inner().other_form(state, &*scope, calls, x),
            Err(e) => Err(e),
        }
    }

    // The default by its parts: the sequence of its statements.
    #[tactic(auto, using(hc_evaluate::proofs::Steps::err_then, hc_evaluate::proofs::Steps::value_then, crate::proofs::Listed::read_sequence, crate::proofs::Branches::sequence_typed), unfolding(hc_scope::specs::Statement::other_form))]
    fn other_form<'s, 't>(
        &self,
        state: &mut State,
        scope: &'s Scope<'s, 't>,
        calls: u32,
        x: &'t Other,
    ) -> Result<Stmt, FrontErr>
        requires runs { Runs self.now.room (F.pre self.now.statement) (F.post self.now.statement) }
        requires sound { AreSound (kinds_of state.old.objects) }
        ensures answers { Answers statement (spec.other_form (nodes self.now.room) (context_of scope.now calls) x.now state.old) result state.new }
        ensures typed { IfOk result (λ v. IsTyped (kinds_of state.new.objects) (statement v)) }
        ensures grows { OnOk result (Grows state.old.objects state.new.objects) }
    {
        match self.each(state, &*scope, calls, x.stmts.as_slice()) {
            Ok(parts) => Ok(Stmt::Seq {
                place: x.place,
                parts,
            }),
            Err(e) => Err(e),
        }
    }
}
