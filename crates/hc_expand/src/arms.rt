ghost use Rattle.std.specs.Prelude.{IfOk, OnOk, map};
ghost use Rattle.hc_core.specs.Read.{arms};
ghost use Rattle.hc_core.specs.Sound.{ArmsTyped, IsWidth};
ghost use Rattle.hc_core.specs.Typed.{kinds_of};
ghost use Rattle.hc_scope.specs.Expansion.{each};
ghost use Rattle.hc_expand.specs.Branches.{arm_read, IsArm};
ghost use Rattle.hc_scope.specs.Nodes.{nodes};
ghost use Rattle.hc_scope.specs.Reading.{context_of, Answers};
ghost use Rattle.hc_expand.specs.Runs.{Runs};
ghost use Rattle.hc_scope.specs.Sound.{AreSound, Grows};
ghost use Rattle.hc_scope.specs.Statement as spec;

use crate::statements::Statements;
use crate::switch::{has_default, label_numbers};
use hc_core::{Arm, Arms, Stmt};
use hc_scope::{Scope, State, ValueType, enter};
use hc_tree as tree;
use hc_tree::FrontErr;
use sqlite_items::Items;
use std::alloc::Global;

impl<
    F: Copy
        + for<'s, 't> Fn(
            Global,
            &mut State,
            &'s Scope<'s, 't>,
            u32,
            u32,
            &'t tree::Stmt,
        ) -> Result<Stmt, FrontErr>,
> Statements<F> {
    // The arms of a `switch` one after another, by the type of the selector.
    #[tactic(auto, using(crate::proofs::Each::along_start, crate::proofs::Each::along_more, crate::proofs::Each::along_err, crate::proofs::Each::along_end, hc_scope::proofs::Longer::grows_not, hc_scope::proofs::Longer::grows_on, crate::proofs::Branches::no_arms))]
    pub(crate) fn arms<'s, 't>(
        &self,
        state: &mut State,
        scope: &'s Scope<'s, 't>,
        calls: u32,
        of: ValueType,
        all: &'t [tree::Arm],
    ) -> Result<Arms, FrontErr>
        requires runs { Runs self.now.room (F.pre self.now.statement) (F.post self.now.statement) }
        requires sound { AreSound (kinds_of state.old.objects) }
        requires width { IsWidth of.width }
        ensures answers { Answers (map arm_read) (each ((nodes self.now.room).arm (context_of scope.now calls) of.width of.signed) all.now state.old) result state.new }
        ensures typed { IfOk result (λ v. ArmsTyped (kinds_of state.new.objects) of.width of.signed (arms v)) }
        ensures grows { OnOk result (Grows state.old.objects state.new.objects) }
    {
        let mut done = Items::new(self.alloc);
        let mut rest = all;
        'each: while let [first, behind @ ..] = rest {
            match self.arm(state, &*scope, calls, of, first) {
                Ok(made) => match done.push(made) {
                    Ok(()) => {}
                    Err(_) => {
                        drop(done);
                        return Err(FrontErr::NoMemory);
                    }
                },
                Err(e) => {
                    drop(done);
                    return Err(e);
                }
            }
            rest = behind;
        }
        Ok(done)
    }

    // An arm, as a node.
    #[tactic(auto, using(hc_evaluate::proofs::PartNodes::arm_is, crate::proofs::StatementNodes::runs_inside))]
    fn arm<'s, 't>(
        &self,
        state: &mut State,
        scope: &'s Scope<'s, 't>,
        calls: u32,
        of: ValueType,
        a: &'t tree::Arm,
    ) -> Result<Arm, FrontErr>
        requires runs { Runs self.now.room (F.pre self.now.statement) (F.post self.now.statement) }
        requires sound { AreSound (kinds_of state.old.objects) }
        requires width { IsWidth of.width }
        ensures answers { Answers arm_read ((nodes self.now.room).arm (context_of scope.now calls) of.width of.signed a.now state.old) result state.new }
        ensures typed { IfOk result (λ v. IsArm (kinds_of state.new.objects) of.width of.signed v) }
        ensures grows { OnOk result (Grows state.old.objects state.new.objects) }
    {
        match enter(state, false, calls, a.place, self.room) {
            Ok(()) => self.inner().arm_form(state, &*scope, calls, of, a),
            Err(e) => Err(e),
        }
    }

    // An arm by its parts: the numbers of its labels, and the sequence of its statements.
    #[tactic(auto, using(hc_evaluate::proofs::Steps::err_then, hc_evaluate::proofs::Steps::value_then, crate::proofs::Listed::read_sequence, crate::proofs::Branches::sequence_typed), unfolding(hc_scope::specs::Statement::arm_form))]
    fn arm_form<'s, 't>(
        &self,
        state: &mut State,
        scope: &'s Scope<'s, 't>,
        calls: u32,
        of: ValueType,
        a: &'t tree::Arm,
    ) -> Result<Arm, FrontErr>
        requires runs { Runs self.now.room (F.pre self.now.statement) (F.post self.now.statement) }
        requires sound { AreSound (kinds_of state.old.objects) }
        requires width { IsWidth of.width }
        ensures answers { Answers arm_read (spec.arm_form (nodes self.now.room) (context_of scope.now calls) of.width of.signed a.now state.old) result state.new }
        ensures typed { IfOk result (λ v. IsArm (kinds_of state.new.objects) of.width of.signed v) }
        ensures grows { OnOk result (Grows state.old.objects state.new.objects) }
    {
        let labels = a.labels.as_slice();
        match label_numbers(self.alloc, state, &*scope, calls, self.room, of, labels) {
            Ok(values) => match self.each(state, &*scope, calls, a.stmts.as_slice()) {
                Ok(parts) => Ok(Arm {
                    values,
                    other: has_default(labels),
                    body: Stmt::Seq {
                        place: a.place,
                        parts,
                    },
                }),
                Err(e) => {
                    drop(values);
                    Err(e)
                }
            },
            Err(e) => Err(e),
        }
    }
}
