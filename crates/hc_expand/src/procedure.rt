ghost use Rattle.std.specs.Prelude.{◌<◌, IfOk, OnOk};
ghost use Rattle.hc_core.specs.Read.{statement};
ghost use Rattle.hc_core.specs.Sound.{IsTyped};
ghost use Rattle.hc_core.specs.Typed.{kinds_of};
ghost use Rattle.hc_scope.specs.Nodes.{nodes};
ghost use Rattle.hc_scope.specs.Reading.{scope_of, meaning_of, context_of, Answers};
ghost use Rattle.hc_expand.specs.Runs.{Runs};
ghost use Rattle.hc_scope.specs.Sound.{AreSound, Grows};
ghost use Rattle.hc_scope.specs.Statement as spec;

use crate::statements::Statements;
use hc_core::Stmt;
use hc_scope::{Found, Meaning, Scope, State, broken_name, call_scope, find};
use hc_tree as tree;
use hc_tree::{Block, ExprTree, FrontErr, Ident, Place, Rule};
use std::alloc::Global;

impl<
    F: Copy
        + for<'s, 't> Fn(
            Global,
            &mut State,
            &'s Scope<'s, 't>,
            u32,
            u32,
            &'t tree::Stmt,
        ) -> Result<Stmt, FrontErr>,
> Statements<F> {
    // A call of a macro procedure: S4 where the name isn't declared, and S6 where it is no procedure's.
    #[tactic(auto, unfolding(hc_scope::specs::Statement::run))]
    pub(crate) fn run<'s, 't>(
        &self,
        state: &mut State,
        scope: &'s Scope<'s, 't>,
        calls: u32,
        place: Place,
        x: &'t Ident,
        arguments: &'t [ExprTree],
    ) -> Result<Stmt, FrontErr>
        requires runs { Runs self.now.room (F.pre self.now.statement) (F.post self.now.statement) }
        requires sound { AreSound (kinds_of state.old.objects) }
        requires few { calls < 200 }
        ensures answers { Answers statement (spec.run (nodes self.now.room) (context_of scope.now calls) place x.now arguments.now state.old) result state.new }
        ensures typed { IfOk result (λ v. IsTyped (kinds_of state.new.objects) (statement v)) }
        ensures grows { OnOk result (Grows state.old.objects state.new.objects) }
    {
        match find(scope, x.name.as_bytes()) {
            Some(found) => self.run_found(state, &*scope, calls, place, x, arguments, &found),
            None => Err(broken_name(self.alloc, Rule::S4, x)),
        }
    }

    // A call of what a name stands for.
    fn run_found<'s, 't>(
        &self,
        state: &mut State,
        scope: &'s Scope<'s, 't>,
        calls: u32,
        place: Place,
        x: &'t Ident,
        arguments: &'t [ExprTree],
        found: &Found<'_, 't>,
    ) -> Result<Stmt, FrontErr>
        requires runs { Runs self.now.room (F.pre self.now.statement) (F.post self.now.statement) }
        requires sound { AreSound (kinds_of state.old.objects) }
        requires few { calls < 200 }
        ensures answers { Answers statement (spec.run_by (nodes self.now.room) (context_of scope.now calls) place x.now arguments.now (scope_of found.now.scope) (meaning_of found.now.meaning) state.old) result state.new }
        ensures typed { IfOk result (λ v. IsTyped (kinds_of state.new.objects) (statement v)) }
        ensures grows { OnOk result (Grows state.old.objects state.new.objects) }
    {
        match &found.meaning {
            Meaning::Object(_) => Err(broken_name(self.alloc, Rule::S6, x)),
            Meaning::Interface(_, _) => Err(broken_name(self.alloc, Rule::S6, x)),
            Meaning::Number(_) => Err(broken_name(self.alloc, Rule::S6, x)),
            Meaning::Expression(_, _) => Err(broken_name(self.alloc, Rule::S6, x)),
            Meaning::Procedure(parameters, body) => {
                let around = &found.scope;
                self.run_body(
                    state, &*scope, calls, place, x, parameters, body, around, arguments,
                )
            }
            Meaning::Argument(_, _) => Err(broken_name(self.alloc, Rule::S6, x)),
        }
    }

    // The body of a macro procedure, with its parameters bound to arguments.
    #[tactic(auto, using(hc_evaluate::proofs::Steps::err_then, hc_evaluate::proofs::Steps::value_then, crate::proofs::Listed::read_sequence, crate::proofs::Branches::sequence_typed))]
    fn run_body<'s, 't>(
        &self,
        state: &mut State,
        scope: &'s Scope<'s, 't>,
        calls: u32,
        place: Place,
        x: &'t Ident,
        parameters: &'t [Ident],
        body: &'t Block,
        around: &Scope<'_, 't>,
        arguments: &'t [ExprTree],
    ) -> Result<Stmt, FrontErr>
        requires runs { Runs self.now.room (F.pre self.now.statement) (F.post self.now.statement) }
        requires sound { AreSound (kinds_of state.old.objects) }
        requires few { calls < 200 }
        ensures answers { Answers statement (spec.run_procedure (nodes self.now.room) (context_of scope.now calls) place x.now parameters.now body.now (scope_of around.now) arguments.now state.old) result state.new }
        ensures typed { IfOk result (λ v. IsTyped (kinds_of state.new.objects) (statement v)) }
        ensures grows { OnOk result (Grows state.old.objects state.new.objects) }
    {
        match call_scope(self.alloc, scope, x, parameters, around, arguments) {
            Ok(inner) => match self.block(state, &inner, calls + 1, body) {
                Ok(parts) => Ok(Stmt::Seq { place, parts }),
                Err(e) => Err(e),
            },
            Err(e) => Err(e),
        }
    }
}
