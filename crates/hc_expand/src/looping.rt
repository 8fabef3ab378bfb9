ghost use Rattle.std.specs.Prelude.{◌≡◌, Err, IfOk, IfErr, OnOk};
ghost use Rattle.hc_core.specs.Program as core;
ghost use Rattle.hc_core.specs.Program.{stop, ◌⨾◌};
ghost use Rattle.hc_core.specs.Read.{expression, statement};
ghost use Rattle.hc_core.specs.Sound.{IsTyped};
ghost use Rattle.hc_core.specs.Typed.{HasSomeType, kinds_of};
ghost use Rattle.hc_expand.specs.Forms.{IsMade, IsLoopTyped, for_made, loop_read, loop_parts, loop_condition, loop_last};
ghost use Rattle.hc_scope.specs.Nodes.{nodes};
ghost use Rattle.hc_scope.specs.Reading.{context_of, Answers};
ghost use Rattle.hc_expand.specs.Runs.{Runs};
ghost use Rattle.hc_scope.specs.Sound.{AreSound, Grows};
ghost use Rattle.hc_scope.specs.Statement as spec;
ghost use Rattle.hc_tree.specs.declared.stmt.LocalItem.TheOpen.{Stmt-F};

use crate::statements::Statements;
use hc_core::{Expr, Stmt};
use hc_evaluate as of;
use hc_evaluate::{condition, condition_or_one, simple_form};
use hc_scope::{Scope, State, enter, simple_place};
use hc_tree as tree;
use hc_tree::{ExprTree, FrontErr, Place, Simple};
use sqlite_items::{Boxed, Items};
use std::alloc::Global;

/// The first part, the condition and the last part of a `for`.
#[derive(Drop)]
pub(crate) struct LoopParts {
    pub(crate) first: Stmt,
    pub(crate) holding: Expr,
    pub(crate) last: Stmt,
}

impl<
    F: Copy
        + for<'s, 't> Fn(
            Global,
            &mut State,
            &'s Scope<'s, 't>,
            u32,
            u32,
            &'t tree::Stmt,
        ) -> Result<Stmt, FrontErr>,
> Statements<F> {
    // `while`
    #[tactic(auto, using(hc_evaluate::proofs::Steps::err_then, hc_evaluate::proofs::Steps::value_then, crate::proofs::Made::made_answers, crate::proofs::Made::while_typed))]
    pub(crate) fn while_statement<'s, 't>(
        &self,
        state: &mut State,
        scope: &'s Scope<'s, 't>,
        calls: u32,
        place: Place,
        e: &'t ExprTree,
        body: &'t tree::Stmt,
    ) -> Result<Stmt, FrontErr>
        requires runs { Runs self.now.room (F.pre self.now.statement) (F.post self.now.statement) }
        requires sound { AreSound (kinds_of state.old.objects) }
        ensures answers { Answers statement (spec.statement_layer (nodes self.now.room) (context_of scope.now calls) (Stmt-F.While place e.now body.now) state.old) result state.new }
        ensures typed { IfOk result (λ s. IsTyped (kinds_of state.new.objects) (statement s)) }
        ensures grows { OnOk result (Grows state.old.objects state.new.objects) }
    {
        match of::expression(self.alloc, state, scope, calls, self.room, e) {
            Ok(v) => match self.statement(state, scope, calls, body) {
                Ok(body) => while_of(self.alloc, place, condition(v), body),
                Err(e) => {
                    drop(v);
                    Err(e)
                }
            },
            Err(e) => Err(e),
        }
    }

    // `do` with `while` behind it.
    #[tactic(auto, using(hc_evaluate::proofs::Steps::err_then, hc_evaluate::proofs::Steps::value_then, crate::proofs::Made::made_answers, crate::proofs::Made::do_typed))]
    pub(crate) fn do_while<'s, 't>(
        &self,
        state: &mut State,
        scope: &'s Scope<'s, 't>,
        calls: u32,
        place: Place,
        body: &'t tree::Stmt,
        e: &'t ExprTree,
    ) -> Result<Stmt, FrontErr>
        requires runs { Runs self.now.room (F.pre self.now.statement) (F.post self.now.statement) }
        requires sound { AreSound (kinds_of state.old.objects) }
        ensures answers { Answers statement (spec.statement_layer (nodes self.now.room) (context_of scope.now calls) (Stmt-F.DoWhile place body.now e.now) state.old) result state.new }
        ensures typed { IfOk result (λ s. IsTyped (kinds_of state.new.objects) (statement s)) }
        ensures grows { OnOk result (Grows state.old.objects state.new.objects) }
    {
        match self.statement(state, scope, calls, body) {
            Ok(body) => match of::expression(self.alloc, state, scope, calls, self.room, e) {
                Ok(v) => do_of(self.alloc, place, body, condition(v)),
                Err(e) => {
                    drop(body);
                    Err(e)
                }
            },
            Err(e) => Err(e),
        }
    }

    // `for`: its first part, and a loop on its condition of its body and its last part.
    #[tactic(auto, using(crate::proofs::Made::loop_after))]
    pub(crate) fn for_statement<'s, 't>(
        &self,
        state: &mut State,
        scope: &'s Scope<'s, 't>,
        calls: u32,
        place: Place,
        first: &'t Option<Simple>,
        e: &'t Option<ExprTree>,
        last: &'t Option<Simple>,
        body: &'t tree::Stmt,
    ) -> Result<Stmt, FrontErr>
        requires runs { Runs self.now.room (F.pre self.now.statement) (F.post self.now.statement) }
        requires sound { AreSound (kinds_of state.old.objects) }
        ensures answers { Answers statement (spec.statement_layer (nodes self.now.room) (context_of scope.now calls) (Stmt-F.For place first.now e.now last.now body.now) state.old) result state.new }
        ensures typed { IfOk result (λ s. IsTyped (kinds_of state.new.objects) (statement s)) }
        ensures grows { OnOk result (Grows state.old.objects state.new.objects) }
    {
        match loop_parts(self.alloc, state, scope, calls, self.room, first, e, last) {
            Ok(l) => for_behind(
                self.alloc,
                place,
                l,
                self.statement(state, scope, calls, body),
            ),
            Err(e) => Err(e),
        }
    }
}

// The first part, the condition and the last part of a `for`.
#[tactic(auto, using(hc_evaluate::proofs::Steps::err_then, hc_evaluate::proofs::Steps::value_then, crate::proofs::Made::loop_ok, crate::proofs::Made::stays))]
fn loop_parts<'s, 't>(
    alloc: Global,
    state: &mut State,
    scope: &'s Scope<'s, 't>,
    calls: u32,
    room: u32,
    first: &'t Option<Simple>,
    e: &'t Option<ExprTree>,
    last: &'t Option<Simple>,
) -> Result<Boxed<LoopParts>, FrontErr>
    requires sound { AreSound (kinds_of state.old.objects) }
    ensures answers { Answers loop_read (loop_parts (nodes room) (context_of scope.now calls) first.now e.now last.now state.old) result state.new }
    ensures typed { IfOk result (λ l. IsLoopTyped (kinds_of state.old.objects) (loop_read l)) }
    ensures objects { state.new.objects ≡ state.old.objects }
{
    match simple_or_skip(alloc, state, scope, calls, room, first) {
        Ok(a) => loop_condition(alloc, state, scope, calls, room, a, e, last),
        Err(e) => Err(e),
    }
}

// The parts of a `for` behind its first one.
#[tactic(auto, using(hc_evaluate::proofs::Steps::err_then, hc_evaluate::proofs::Steps::value_then, crate::proofs::Made::loop_ok, crate::proofs::Made::as_before, crate::proofs::Made::stays))]
fn loop_condition<'s, 't>(
    alloc: Global,
    state: &mut State,
    scope: &'s Scope<'s, 't>,
    calls: u32,
    room: u32,
    first: Stmt,
    e: &'t Option<ExprTree>,
    last: &'t Option<Simple>,
) -> Result<Boxed<LoopParts>, FrontErr>
    requires sound { AreSound (kinds_of state.old.objects) }
    requires first { IsTyped (kinds_of state.old.objects) (statement first) }
    ensures answers { Answers loop_read (loop_condition (nodes room) (context_of scope.now calls) (statement first) e.now last.now state.old) result state.new }
    ensures typed { IfOk result (λ l. IsLoopTyped (kinds_of state.old.objects) (loop_read l)) }
    ensures objects { state.new.objects ≡ state.old.objects }
{
    match condition_or_one(alloc, state, scope, calls, room, e) {
        Ok(holding) => loop_last(alloc, state, scope, calls, room, first, holding, last),
        Err(e) => {
            drop(first);
            Err(e)
        }
    }
}

// The last part of a `for`, behind the others.
#[tactic(auto, using(hc_evaluate::proofs::Steps::err_then, hc_evaluate::proofs::Steps::value_then))]
fn loop_last<'s, 't>(
    alloc: Global,
    state: &mut State,
    scope: &'s Scope<'s, 't>,
    calls: u32,
    room: u32,
    first: Stmt,
    holding: Expr,
    last: &'t Option<Simple>,
) -> Result<Boxed<LoopParts>, FrontErr>
    requires sound { AreSound (kinds_of state.old.objects) }
    requires first { IsTyped (kinds_of state.old.objects) (statement first) }
    requires holding { HasSomeType (kinds_of state.old.objects) (expression holding) }
    ensures answers { Answers loop_read (loop_last (nodes room) (context_of scope.now calls) (statement first) (expression holding) last.now state.old) result state.new }
    ensures typed { IfOk result (λ l. IsLoopTyped (kinds_of state.old.objects) (loop_read l)) }
    ensures objects { state.new.objects ≡ state.old.objects }
{
    match simple_or_skip(alloc, state, scope, calls, room, last) {
        Ok(last) => match Boxed::new(
            alloc,
            LoopParts {
                first,
                holding,
                last,
            },
        ) {
            Ok(l) => Ok(l),
            Err(_) => Err(FrontErr::NoMemory),
        },
        Err(e) => {
            drop(holding);
            drop(first);
            Err(e)
        }
    }
}

// A part that may be left out.
#[tactic(auto, using(hc_core::proofs::Read::reading))]
fn simple_or_skip<'s, 't>(
    alloc: Global,
    state: &mut State,
    scope: &'s Scope<'s, 't>,
    calls: u32,
    room: u32,
    x: &'t Option<Simple>,
) -> Result<Stmt, FrontErr>
    requires sound { AreSound (kinds_of state.old.objects) }
    ensures answers { Answers statement (spec.simple_or_skip (nodes room) (context_of scope.now calls) x.now state.old) result state.new }
    ensures typed { IfOk result (λ s. IsTyped (kinds_of state.old.objects) (statement s)) }
    ensures objects { state.new.objects ≡ state.old.objects }
{
    match x {
        Some(x) => simple_part(alloc, state, scope, calls, room, x),
        None => Ok(Stmt::Skip),
    }
}

// A part of a `for`, which is a node.
#[tactic(auto, using(crate::proofs::StatementNodes::simple_is))]
fn simple_part<'s, 't>(
    alloc: Global,
    state: &mut State,
    scope: &'s Scope<'s, 't>,
    calls: u32,
    room: u32,
    x: &'t Simple,
) -> Result<Stmt, FrontErr>
    requires sound { AreSound (kinds_of state.old.objects) }
    ensures answers { Answers statement ((nodes room).simple (context_of scope.now calls) x.now state.old) result state.new }
    ensures typed { IfOk result (λ s. IsTyped (kinds_of state.old.objects) (statement s)) }
    ensures objects { state.new.objects ≡ state.old.objects }
{
    match enter(state, false, calls, simple_place(x), room) {
        Ok(()) => simple_form(alloc, state, scope, calls, room - 1, x),
        Err(e) => Err(e),
    }
}

// A loop of its parts.
#[tactic(auto, using(hc_core::proofs::Read::reading))]
fn while_of(alloc: Global, place: Place, condition: Expr, body: Stmt) -> Result<Stmt, FrontErr>
    ensures { IsMade (core.While place (expression condition) (statement body)) result }
{
    match Boxed::new(alloc, body) {
        Ok(body) => Ok(Stmt::While {
            place,
            condition,
            body,
        }),
        Err(_) => {
            drop(condition);
            Err(FrontErr::NoMemory)
        }
    }
}

// A loop of its parts, whose condition stands behind it.
#[tactic(auto, using(hc_core::proofs::Read::reading))]
fn do_of(alloc: Global, place: Place, body: Stmt, condition: Expr) -> Result<Stmt, FrontErr>
    ensures { IsMade (core.DoWhile place (statement body) (expression condition)) result }
{
    match Boxed::new(alloc, body) {
        Ok(body) => Ok(Stmt::DoWhile {
            place,
            body,
            condition,
        }),
        Err(_) => {
            drop(condition);
            Err(FrontErr::NoMemory)
        }
    }
}

// The statements of a `for`, of its other parts and of what its body gives.
fn for_behind(
    alloc: Global,
    place: Place,
    l: Boxed<LoopParts>,
    body: Result<Stmt, FrontErr>,
) -> Result<Stmt, FrontErr>
    ensures made { IfOk body (λ b. IsMade (for_made place (statement l.first) (expression l.holding) (statement l.last) (statement b)) result) }
    ensures stopped { IfErr body (λ e. result ≡ Err e) }
{
    match body {
        Ok(body) => for_of(alloc, place, l.into_inner(), body),
        Err(e) => {
            drop(l);
            Err(e)
        }
    }
}

// The statements of a `for`, of its parts.
#[tactic(auto, using(crate::proofs::Made::made_for, crate::proofs::Made::not_made))]
fn for_of(alloc: Global, place: Place, l: LoopParts, body: Stmt) -> Result<Stmt, FrontErr>
    ensures { IsMade (for_made place (statement l.first) (expression l.holding) (statement l.last) (statement body)) result }
{
    match turning(alloc, place, l.holding, l.last, body) {
        Ok(turning) => pair(alloc, place, l.first, turning),
        Err(e) => {
            drop(l.first);
            Err(e)
        }
    }
}

// The loop of a `for`: its body and its last part, while its condition holds.
#[tactic(auto, using(crate::proofs::Made::made_turning, crate::proofs::Made::not_made))]
fn turning(
    alloc: Global,
    place: Place,
    holding: Expr,
    last: Stmt,
    body: Stmt,
) -> Result<Stmt, FrontErr>
    ensures { IsMade (core.While place (expression holding) (core.Seq place (statement body ⨾ statement last ⨾ stop))) result }
{
    match pair(alloc, place, body, last) {
        Ok(body) => while_of(alloc, place, holding, body),
        Err(e) => {
            drop(holding);
            Err(e)
        }
    }
}

// Two statements in sequence.
#[tactic(auto, using(crate::proofs::Made::read_pair))]
fn pair(alloc: Global, place: Place, first: Stmt, second: Stmt) -> Result<Stmt, FrontErr>
    ensures { IsMade (core.Seq place (statement first ⨾ statement second ⨾ stop)) result }
{
    let mut parts = Items::new(alloc);
    match parts.push(first) {
        Ok(()) => match parts.push(second) {
            Ok(()) => Ok(Stmt::Seq { place, parts }),
            Err(_) => {
                drop(parts);
                Err(FrontErr::NoMemory)
            }
        },
        Err(_) => {
            drop(parts);
            drop(second);
            Err(FrontErr::NoMemory)
        }
    }
}
