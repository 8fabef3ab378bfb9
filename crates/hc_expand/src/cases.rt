ghost use Rattle.std.specs.Prelude.{◌≡◌, List, IfOk, OnOk};
ghost use Rattle.hc_core.specs.Program.{Seq};
ghost use Rattle.hc_core.specs.Read.{case_before, statements};
ghost use Rattle.hc_core.specs.Sound.{AllTyped, IsWidth};
ghost use Rattle.hc_core.specs.Typed.{kinds_of};
ghost use Rattle.hc_core.specs.declared.object.Kind.{Kind};
ghost use Rattle.hc_expand.specs.Forms.{parts_read};
ghost use Rattle.hc_expand.specs.Branches.{offered_read, IsOffered, IsCase};
ghost use Rattle.hc_scope.specs.Nodes.{nodes};
ghost use Rattle.hc_scope.specs.Reading.{context_of, Answers};
ghost use Rattle.hc_expand.specs.Runs.{Runs};
ghost use Rattle.hc_scope.specs.Sound.{AreSound, Grows};
ghost use Rattle.hc_scope.specs.Statement as spec;
ghost use Rattle.hc_evaluate.specs.Targets.{channel_read, IsChannelOf};

use crate::statements::Statements;
use hc_core::{Case, Expr, Stmt, Stmts, Target};
use hc_evaluate::{Channel, find_channel, received, sent};
use hc_scope::{Scope, State, enter};
use hc_tree as tree;
use hc_tree::{FrontErr, Offer, Place};
use std::alloc::Global;

/// What a case of `prialt` waits for, by its channel's number.
#[derive(Drop)]
pub(crate) enum Offered {
    Send(u32, Expr),
    Receive(u32, Target),
}

impl<
    F: Copy
        + for<'s, 't> Fn(
            Global,
            &mut State,
            &'s Scope<'s, 't>,
            u32,
            u32,
            &'t tree::Stmt,
        ) -> Result<Stmt, FrontErr>,
> Statements<F> {
    // A case, as a node.
    #[tactic(auto, using(hc_evaluate::proofs::PartNodes::case_is, crate::proofs::StatementNodes::runs_inside))]
    pub(crate) fn case<'s, 't>(
        &self,
        state: &mut State,
        scope: &'s Scope<'s, 't>,
        calls: u32,
        x: &'t tree::Case,
    ) -> Result<Case, FrontErr>
        requires runs { Runs self.now.room (F.pre self.now.statement) (F.post self.now.statement) }
        requires sound { AreSound (kinds_of state.old.objects) }
        ensures answers { Answers case_before ((nodes self.now.room).case (context_of scope.now calls) x.now state.old) result state.new }
        ensures typed { IfOk result (λ v. IsCase (kinds_of state.new.objects) v) }
        ensures grows { OnOk result (Grows state.old.objects state.new.objects) }
    {
        match enter(state, false, calls, x.place, self.room) {
            Ok(()) => self.inner().case_form(state, &*scope, calls, x),
            Err(e) => Err(e),
        }
    }

    // A case by its parts: what it waits for, and the sequence of its statements.
    #[tactic(auto, using(hc_evaluate::proofs::Steps::err_then, hc_evaluate::proofs::Steps::value_then, crate::proofs::Branches::grown_offer), unfolding(hc_scope::specs::Statement::case_form))]
    fn case_form<'s, 't>(
        &self,
        state: &mut State,
        scope: &'s Scope<'s, 't>,
        calls: u32,
        x: &'t tree::Case,
    ) -> Result<Case, FrontErr>
        requires runs { Runs self.now.room (F.pre self.now.statement) (F.post self.now.statement) }
        requires sound { AreSound (kinds_of state.old.objects) }
        ensures answers { Answers case_before (spec.case_form (nodes self.now.room) (context_of scope.now calls) x.now state.old) result state.new }
        ensures typed { IfOk result (λ v. IsCase (kinds_of state.new.objects) v) }
        ensures grows { OnOk result (Grows state.old.objects state.new.objects) }
    {
        match find_channel(self.alloc, state, &*scope, &x.channel) {
            Ok(c) => {
                match offer_of(
                    self.alloc, state, &*scope, calls, self.room, x.place, c, &x.offer,
                ) {
                    Ok(made) => match self.each(state, &*scope, calls, x.stmts.as_slice()) {
                        Ok(parts) => Ok(cased(x.place, made, parts)),
                        Err(e) => {
                            drop(made);
                            Err(e)
                        }
                    },
                    Err(e) => Err(e),
                }
            }
            Err(e) => Err(e),
        }
    }
}

// What a case waits for, with the channel's type.
#[tactic(auto, using(hc_evaluate::proofs::Steps::err_then, hc_evaluate::proofs::Steps::value_then, crate::proofs::Branches::sends_offered, crate::proofs::Branches::receives_offered))]
fn offer_of<'s, 't>(
    alloc: Global,
    state: &mut State,
    scope: &'s Scope<'s, 't>,
    calls: u32,
    room: u32,
    place: Place,
    c: Channel,
    offer: &'t Offer,
) -> Result<Offered, FrontErr>
    requires sound { AreSound (kinds_of state.old.objects) }
    requires is { IsChannelOf (kinds_of state.old.objects) c.number c.of.width c.of.signed }
    requires width { IsWidth c.of.width }
    ensures answers { Answers offered_read (spec.offered (nodes room) (context_of scope.now calls) place (channel_read c) offer.now state.old) result state.new }
    ensures typed { IfOk result (λ v. IsOffered (kinds_of state.old.objects) v) }
    ensures objects { state.new.objects ≡ state.old.objects }
{
    match offer {
        Offer::Send(value) => match sent(alloc, state, &*scope, calls, room, place, c.of, value) {
            Ok(value) => Ok(Offered::Send(c.number, value)),
            Err(e) => Err(e),
        },
        Offer::Receive(to) => match received(alloc, state, &*scope, calls, room, place, c.of, to) {
            Ok(to) => Ok(Offered::Receive(c.number, to)),
            Err(e) => Err(e),
        },
    }
}

// A case of its parts.
#[tactic(auto, using(crate::proofs::Branches::read_send_case, crate::proofs::Branches::read_receive_case, crate::proofs::Branches::sequence_typed))]
fn cased(place: Place, made: Offered, parts: Stmts) -> Case
    ensures is { case_before result ≡ offered_read made (Seq place (spec.in_order (parts_read parts))) }
    ensures typed { (kinds : List Kind) → IsOffered kinds made → AllTyped kinds (statements parts) → IsCase kinds result }
{
    let arm = Stmt::Seq { place, parts };
    match made {
        Offered::Send(chan, value) => Case::Send { chan, value, arm },
        Offered::Receive(chan, target) => Case::Recv { chan, target, arm },
    }
}
