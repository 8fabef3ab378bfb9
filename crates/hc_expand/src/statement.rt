ghost use Rattle.std.specs.Prelude.{◌≡◌, ◌<◌, true, IfOk, OnOk};
ghost use Rattle.hc_core.specs.Read as read;
ghost use Rattle.hc_core.specs.Sound.{IsTyped, AllTyped};
ghost use Rattle.hc_core.specs.Typed.{kinds_of};
ghost use Rattle.hc_expand.specs.Forms.{parts_read};
ghost use Rattle.hc_scope.specs.Nodes.{nodes};
ghost use Rattle.hc_scope.specs.Reading.{context_of, Answers};
ghost use Rattle.hc_expand.specs.Runs.{Runs};
ghost use Rattle.hc_scope.specs.Sound.{AreSound, Grows};
ghost use Rattle.hc_scope.specs.Statement as spec;

use crate::statements::Statements;
use hc_core::{Stmt, Stmts};
use hc_evaluate::{receive, send, simple_form};
use hc_scope::{Scope, State, enter, simple_place};
use hc_tree as tree;
use hc_tree::{Block, Condition, FrontErr, Place};
use std::alloc::Global;

/// A statement around which `room` more nodes may be open, within so many macro calls.
#[tactic(auto, using(crate::proofs::StatementNodes::statement_is))]
#[cycle(expand_statement)]
pub(crate) fn statement<'s, 't>(
    alloc: Global,
    state: &mut State,
    scope: &'s Scope<'s, 't>,
    calls: u32,
    room: u32,
    s: &'t tree::Stmt,
) -> Result<Stmt, FrontErr>
    requires sound { AreSound (kinds_of state.old.objects) }
    ensures answers { Answers read.statement ((nodes room).statement (context_of scope.now calls) s.now state.old) result state.new }
    ensures typed { IfOk result (λ v. IsTyped (kinds_of state.new.objects) (read.statement v)) }
    ensures grows { OnOk result (Grows state.old.objects state.new.objects) }
{
    match enter(state, is_run(s), calls, stmt_place(s), room) {
        Ok(()) => Statements {
            alloc,
            room: room - 1,
            statement,
        }
        .statement_form(state, scope, calls, s),
        Err(e) => Err(e),
    }
}

/// The statements of the block of `main`, around which 2,000 more nodes may be open.
pub(crate) fn main_block<'s, 't>(
    alloc: Global,
    state: &mut State,
    scope: &'s Scope<'s, 't>,
    calls: u32,
    body: &'t Block,
) -> Result<Stmts, FrontErr>
    requires sound { AreSound (kinds_of state.old.objects) }
    ensures answers { Answers parts_read ((nodes 2001).block (context_of scope.now calls) body.now state.old) result state.new }
    ensures typed { IfOk result (λ parts. AllTyped (kinds_of state.new.objects) (read.statements parts)) }
    ensures grows { OnOk result (Grows state.old.objects state.new.objects) }
{
    Statements {
        alloc,
        room: 2001,
        statement,
    }
    .block(state, scope, calls, body)
}

/// Whether a statement is a call, which L4 counts.
pub(crate) fn is_run(s: &tree::Stmt) -> bool
    ensures { result ≡ spec.is_run s.now }
{
    match s {
        tree::Stmt::Empty { .. } => false,
        tree::Stmt::Block(_) => false,
        tree::Stmt::Seq { .. } => false,
        tree::Stmt::Par { .. } => false,
        tree::Stmt::Replicator { .. } => false,
        tree::Stmt::Simple(_) => false,
        tree::Stmt::Delay { .. } => false,
        tree::Stmt::Send { .. } => false,
        tree::Stmt::Receive { .. } => false,
        tree::Stmt::Call { .. } => true,
        tree::Stmt::If { .. } => false,
        tree::Stmt::While { .. } => false,
        tree::Stmt::DoWhile { .. } => false,
        tree::Stmt::For { .. } => false,
        tree::Stmt::Switch { .. } => false,
        tree::Stmt::Prialt { .. } => false,
    }
}

/// The place of a statement.
pub(crate) fn stmt_place(s: &tree::Stmt) -> Place
    ensures { result ≡ spec.stmt_place s.now }
{
    match s {
        tree::Stmt::Empty { place } => *place,
        tree::Stmt::Block(b) => b.place,
        tree::Stmt::Seq { place, .. } => *place,
        tree::Stmt::Par { place, .. } => *place,
        tree::Stmt::Replicator { place, .. } => *place,
        tree::Stmt::Simple(x) => simple_place(x),
        tree::Stmt::Delay { place } => *place,
        tree::Stmt::Send { place, .. } => *place,
        tree::Stmt::Receive { place, .. } => *place,
        tree::Stmt::Call { place, .. } => *place,
        tree::Stmt::If { place, .. } => *place,
        tree::Stmt::While { place, .. } => *place,
        tree::Stmt::DoWhile { place, .. } => *place,
        tree::Stmt::For { place, .. } => *place,
        tree::Stmt::Switch { place, .. } => *place,
        tree::Stmt::Prialt { place, .. } => *place,
    }
}

impl<
    F: Copy
        + for<'s, 't> Fn(
            Global,
            &mut State,
            &'s Scope<'s, 't>,
            u32,
            u32,
            &'t tree::Stmt,
        ) -> Result<Stmt, FrontErr>,
> Statements<F> {
    // A statement by its form.
    #[tactic(auto, using(hc_core::proofs::Read::reading, hc_scope::proofs::Longer::grows_not), unfolding(hc_scope::specs::Statement::statement_form))]
    fn statement_form<'s, 't>(
        &self,
        state: &mut State,
        scope: &'s Scope<'s, 't>,
        calls: u32,
        s: &'t tree::Stmt,
    ) -> Result<Stmt, FrontErr>
        requires runs { Runs self.now.room (F.pre self.now.statement) (F.post self.now.statement) }
        requires sound { AreSound (kinds_of state.old.objects) }
        requires few { spec.is_run s.now ≡ true → calls < 200 }
        ensures answers { Answers read.statement (spec.statement_form (nodes self.now.room) (context_of scope.now calls) s.now state.old) result state.new }
        ensures typed { IfOk result (λ v. IsTyped (kinds_of state.new.objects) (read.statement v)) }
        ensures grows { OnOk result (Grows state.old.objects state.new.objects) }
    {
        match s {
            tree::Stmt::Empty { .. } => Ok(Stmt::Skip),
            tree::Stmt::Block(b) => self.sequence(state, scope, calls, b.place, b),
            tree::Stmt::Seq { place, body } => self.sequence(state, scope, calls, *place, body),
            tree::Stmt::Par { place, body } => self.parallel(state, scope, calls, *place, body),
            tree::Stmt::Replicator {
                place,
                order,
                name,
                first,
                condition,
                step,
                body,
            } => self.replicator(
                state, scope, calls, *place, *order, name, first, condition, step, body,
            ),
            tree::Stmt::Simple(x) => simple_form(self.alloc, state, scope, calls, self.room, x),
            tree::Stmt::Delay { place } => Ok(Stmt::Delay { place: *place }),
            tree::Stmt::Send {
                place,
                channel,
                value,
            } => send(
                self.alloc, state, scope, calls, self.room, *place, channel, value,
            ),
            tree::Stmt::Receive {
                place,
                channel,
                target,
            } => receive(
                self.alloc, state, scope, calls, self.room, *place, channel, target,
            ),
            tree::Stmt::Call {
                place,
                name,
                arguments,
            } => self.run(state, scope, calls, *place, name, arguments.as_slice()),
            tree::Stmt::If {
                place,
                word,
                condition,
                yes,
                no,
            } => match word {
                Condition::If => {
                    self.if_statement(state, scope, calls, *place, condition, yes.get(), no)
                }
                Condition::IfSelect => {
                    self.if_select(state, scope, calls, condition, yes.get(), no)
                }
            },
            tree::Stmt::While {
                place,
                condition,
                body,
            } => self.while_statement(state, scope, calls, *place, condition, body.get()),
            tree::Stmt::DoWhile {
                place,
                body,
                condition,
            } => self.do_while(state, scope, calls, *place, body.get(), condition),
            tree::Stmt::For {
                place,
                first,
                condition,
                step,
                body,
            } => self.for_statement(
                state,
                scope,
                calls,
                *place,
                first,
                condition,
                step,
                body.get(),
            ),
            tree::Stmt::Switch {
                place,
                selector,
                arms,
            } => self.switch(state, scope, calls, *place, selector, arms.as_slice()),
            tree::Stmt::Prialt {
                place,
                cases,
                other,
            } => self.prialt(state, scope, calls, *place, cases.as_slice(), other),
        }
    }
}
