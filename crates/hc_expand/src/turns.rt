ghost use Rattle.std.specs.Prelude.{◌≡◌, List, IfOk, OnOk};
ghost use Rattle.hc_core.specs.Read.{statement, statements};
ghost use Rattle.hc_core.specs.Sound.{IsTyped, AllTyped};
ghost use Rattle.hc_core.specs.Typed.{kinds_of};
ghost use Rattle.hc_core.specs.declared.object.Kind.{Kind};
ghost use Rattle.hc_expand.specs.Forms.{parts_read};
ghost use Rattle.hc_expand.specs.Branches.{turned_read, IsTurn};
ghost use Rattle.hc_scope.specs.Nodes.{nodes};
ghost use Rattle.hc_scope.specs.Reading.{context_of, Answers};
ghost use Rattle.hc_expand.specs.Runs.{Runs};
ghost use Rattle.hc_scope.specs.Sound.{AreSound, Grows};
ghost use Rattle.hc_scope.specs.Statement as spec;

use crate::statements::Statements;
use hc_core::{Stmt, Stmts};
use hc_evaluate::{constant, step};
use hc_scope::{Scope, State, broken};
use hc_tree as tree;
use hc_tree::{Block, ExprTree, FrontErr, Ident, Order, Place, Rule, Simple};
use hc_width::Whole;
use sqlite_items::Items;
use std::alloc::Global;

/// The body of a turn, and the variable's next number.
#[derive(Drop)]
pub(crate) struct Turned {
    pub(crate) body: Stmt,
    pub(crate) next: Whole,
}

// The greatest number of turns, which is never reached: each turn visits nodes, and there are fewer of these.
const MOST_TURNS: u32 = 1_000_001;

impl<
    F: Copy
        + for<'s, 't> Fn(
            Global,
            &mut State,
            &'s Scope<'s, 't>,
            u32,
            u32,
            &'t tree::Stmt,
        ) -> Result<Stmt, FrontErr>,
> Statements<F> {
    // A replicator: the bodies of its turns, in sequence or as branches.
    #[tactic(auto, using(hc_evaluate::proofs::Steps::err_then, hc_evaluate::proofs::Steps::value_then))]
    pub(crate) fn replicator<'s, 't>(
        &self,
        state: &mut State,
        scope: &'s Scope<'s, 't>,
        calls: u32,
        place: Place,
        how: Order,
        x: &'t Ident,
        first: &'t ExprTree,
        condition: &'t ExprTree,
        step: &'t Simple,
        body: &'t Block,
    ) -> Result<Stmt, FrontErr>
        requires runs { Runs self.now.room (F.pre self.now.statement) (F.post self.now.statement) }
        requires sound { AreSound (kinds_of state.old.objects) }
        ensures answers { Answers statement (spec.replicator (nodes self.now.room) (context_of scope.now calls) place how x.now first.now condition.now step.now body.now state.old) result state.new }
        ensures typed { IfOk result (λ v. IsTyped (kinds_of state.new.objects) (statement v)) }
        ensures grows { OnOk result (Grows state.old.objects state.new.objects) }
    {
        match constant(self.alloc, state, &*scope, calls, self.room, first) {
            Ok(v) => {
                match self.turns(state, &*scope, calls, place, x, condition, step, body, v) {
                    Ok(bodies) => Ok(ordered(how, place, bodies)),
                    Err(e) => Err(e),
                }
            }
            Err(e) => Err(e),
        }
    }

    // The bodies of the turns.
    #[tactic(auto, using(crate::proofs::Bodies::turns_start, hc_scope::proofs::Longer::grows_not, hc_scope::proofs::Longer::grows_on, crate::proofs::Listed::none_typed))]
    fn turns<'s, 't>(
        &self,
        state: &mut State,
        scope: &'s Scope<'s, 't>,
        calls: u32,
        place: Place,
        x: &'t Ident,
        condition: &'t ExprTree,
        step: &'t Simple,
        body: &'t Block,
        first: Whole,
    ) -> Result<Stmts, FrontErr>
        requires runs { Runs self.now.room (F.pre self.now.statement) (F.post self.now.statement) }
        requires sound { AreSound (kinds_of state.old.objects) }
        ensures answers { Answers parts_read (spec.turns 1000001 (nodes self.now.room) (context_of scope.now calls) place x.now condition.now step.now body.now first state.old) result state.new }
        ensures typed { IfOk result (λ v. AllTyped (kinds_of state.new.objects) (statements v)) }
        ensures grows { OnOk result (Grows state.old.objects state.new.objects) }
    {
        let mut done = Items::new(self.alloc);
        let mut v = first;
        let mut most = MOST_TURNS;
        'turn: while most > 0 {
            let found = match self.turn(state, &*scope, calls, x, condition, step, body, v) {
                Ok(found) => found,
                Err(e) => {
                    drop(done);
                    return Err(e);
                }
            };
            match found {
                Some(turned) => {
                    v = turned.next;
                    match done.push(turned.body) {
                        Ok(()) => {}
                        Err(_) => {
                            drop(done);
                            return Err(FrontErr::NoMemory);
                        }
                    }
                }
                None => return Ok(done),
            }
            most -= 1;
        }
        drop(done);
        Err(broken(Rule::L5, place))
    }

    // A turn, in which the variable stands for its number.
    #[tactic(auto, unfolding(hc_scope::specs::Statement::turn, hc_scope::specs::Reading::scope_of))]
    fn turn<'s, 't>(
        &self,
        state: &mut State,
        scope: &'s Scope<'s, 't>,
        calls: u32,
        x: &'t Ident,
        condition: &'t ExprTree,
        step: &'t Simple,
        body: &'t Block,
        v: Whole,
    ) -> Result<Option<Turned>, FrontErr>
        requires runs { Runs self.now.room (F.pre self.now.statement) (F.post self.now.statement) }
        requires sound { AreSound (kinds_of state.old.objects) }
        ensures answers { Answers turned_read (spec.turn (nodes self.now.room) (context_of scope.now calls) x.now condition.now step.now body.now v state.old) result state.new }
        ensures typed { IfOk result (λ t. IsTurn (kinds_of state.new.objects) t) }
        ensures grows { OnOk result (Grows state.old.objects state.new.objects) }
    {
        let inner = Scope::Turn(x, &v, scope);
        self.turn_where(state, &inner, calls, x, condition, step, body, v)
    }

    // A turn, or none where the condition doesn't hold.
    #[tactic(auto, using(hc_evaluate::proofs::Steps::err_then, hc_evaluate::proofs::Steps::value_then, hc_scope::proofs::Longer::grows_not))]
    fn turn_where<'s, 't>(
        &self,
        state: &mut State,
        scope: &'s Scope<'s, 't>,
        calls: u32,
        x: &Ident,
        condition: &'t ExprTree,
        step: &'t Simple,
        body: &'t Block,
        v: Whole,
    ) -> Result<Option<Turned>, FrontErr>
        requires runs { Runs self.now.room (F.pre self.now.statement) (F.post self.now.statement) }
        requires sound { AreSound (kinds_of state.old.objects) }
        ensures answers { Answers turned_read (spec.turn_where (nodes self.now.room) (context_of scope.now calls) x.now condition.now step.now body.now v state.old) result state.new }
        ensures typed { IfOk result (λ t. IsTurn (kinds_of state.new.objects) t) }
        ensures grows { OnOk result (Grows state.old.objects state.new.objects) }
    {
        match constant(self.alloc, state, &*scope, calls, self.room, condition) {
            Ok(holding) => {
                if holding.holds() {
                    self.turned(state, &*scope, calls, x, step, body, v)
                } else {
                    Ok(None)
                }
            }
            Err(e) => Err(e),
        }
    }

    // A turn whose condition holds.
    #[tactic(auto, using(hc_evaluate::proofs::Steps::err_then, hc_evaluate::proofs::Steps::value_then, crate::proofs::Listed::read_sequence, crate::proofs::Branches::sequence_typed))]
    fn turned<'s, 't>(
        &self,
        state: &mut State,
        scope: &'s Scope<'s, 't>,
        calls: u32,
        x: &Ident,
        by: &'t Simple,
        body: &'t Block,
        v: Whole,
    ) -> Result<Option<Turned>, FrontErr>
        requires runs { Runs self.now.room (F.pre self.now.statement) (F.post self.now.statement) }
        requires sound { AreSound (kinds_of state.old.objects) }
        ensures answers { Answers turned_read (spec.turned (nodes self.now.room) (context_of scope.now calls) x.now by.now body.now v state.old) result state.new }
        ensures typed { IfOk result (λ t. IsTurn (kinds_of state.new.objects) t) }
        ensures grows { OnOk result (Grows state.old.objects state.new.objects) }
    {
        match self.block(state, &*scope, calls, body) {
            Ok(parts) => match step(self.alloc, state, &*scope, calls, self.room, x, v, by) {
                Ok(next) => Ok(Some(Turned {
                    body: Stmt::Seq {
                        place: body.place,
                        parts,
                    },
                    next,
                })),
                Err(e) => {
                    drop(parts);
                    Err(e)
                }
            },
            Err(e) => Err(e),
        }
    }
}

// Bodies in sequence, or as branches.
#[tactic(auto, using(crate::proofs::Listed::read_sequence, crate::proofs::Listed::read_parallel, crate::proofs::Branches::sequence_typed, crate::proofs::Branches::parallel_typed))]
fn ordered(how: Order, place: Place, parts: Stmts) -> Stmt
    ensures is { statement result ≡ spec.ordered how place (spec.in_order (parts_read parts)) }
    ensures typed { (kinds : List Kind) → AllTyped kinds (statements parts) → IsTyped kinds (statement result) }
{
    match how {
        Order::Seq => Stmt::Seq { place, parts },
        Order::Par => Stmt::Par {
            place,
            branches: parts,
        },
    }
}
