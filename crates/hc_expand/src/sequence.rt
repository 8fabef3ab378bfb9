ghost use Rattle.std.specs.Prelude.{◌≡◌, IfOk, OnOk};
ghost use Rattle.hc_core.specs.Read.{statements};
ghost use Rattle.hc_core.specs.Sound.{AllTyped};
ghost use Rattle.hc_core.specs.Typed.{kinds_of};
ghost use Rattle.hc_scope.specs.Expansion as spec;
ghost use Rattle.hc_expand.specs.Forms.{parts_read};
ghost use Rattle.hc_scope.specs.Nodes.{nodes};
ghost use Rattle.hc_scope.specs.Reading.{context_of, Answers};
ghost use Rattle.hc_expand.specs.Runs.{Runs};
ghost use Rattle.hc_scope.specs.Sound.{AreSound, Grows};

use crate::statements::Statements;
use hc_core::{Stmt, Stmts};
use hc_scope::{Scope, State};
use hc_tree as tree;
use hc_tree::FrontErr;
use sqlite_items::Items;
use std::alloc::Global;

impl<
    F: Copy
        + for<'s, 't> Fn(
            Global,
            &mut State,
            &'s Scope<'s, 't>,
            u32,
            u32,
            &'t tree::Stmt,
        ) -> Result<Stmt, FrontErr>,
> Statements<F> {
    // Statements one after another.
    #[tactic(auto, using(crate::proofs::Each::along_start, crate::proofs::Each::along_more, crate::proofs::Each::along_err, crate::proofs::Each::along_end, hc_scope::proofs::Longer::grows_not, hc_scope::proofs::Longer::grows_on, crate::proofs::Listed::none_typed, crate::proofs::Listed::one_more_part))]
    pub(crate) fn each<'s, 't>(
        &self,
        state: &mut State,
        scope: &'s Scope<'s, 't>,
        calls: u32,
        all: &'t [tree::Stmt],
    ) -> Result<Stmts, FrontErr>
        requires runs { Runs self.now.room (F.pre self.now.statement) (F.post self.now.statement) }
        requires sound { AreSound (kinds_of state.old.objects) }
        ensures answers { Answers parts_read (spec.each ((nodes self.now.room).statement (context_of scope.now calls)) all.now state.old) result state.new }
        ensures typed { IfOk result (λ parts. AllTyped (kinds_of state.new.objects) (statements parts)) }
        ensures grows { OnOk result (Grows state.old.objects state.new.objects) }
    {
        let mut done = Items::new(self.alloc);
        let mut rest = all;
        'each: while let [first, behind @ ..] = rest {
            match self.statement(state, scope, calls, first) {
                Ok(s) => match done.push(s) {
                    Ok(()) => {}
                    Err(_) => {
                        drop(done);
                        return Err(FrontErr::NoMemory);
                    }
                },
                Err(e) => {
                    drop(done);
                    return Err(e);
                }
            }
            rest = behind;
        }
        Ok(done)
    }
}
