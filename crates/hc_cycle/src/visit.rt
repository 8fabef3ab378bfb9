//! The dependencies of statements. Lists are gone over by loops, so that the recursion is as deep as statements are nested.

ghost use Rattle.std.specs.Prelude.{◌≡◌, [], ◌∷◌, ◌++◌, IfOk, OnOk};
ghost use Rattle.hc_tree.specs.declared.place.Place.{Place};
ghost use Rattle.hc_core.specs.Read.{expression, target, statement, statements, cases, arms};
ghost use Rattle.hc_core.specs.Zero as zeros;
ghost use Rattle.hc_core.specs.Instant.{partners, case_finishes};
ghost use Rattle.hc_core.specs.Depends.{access_needs, case_accesses, case_needs};
ghost use Rattle.hc_core.specs.Program as program;
ghost use Rattle.hc_cycle.specs.Sets.{Adds, Assigns, Shows, Visits, VisitsArms, VisitsBehind, VisitsCaseArms, VisitsCases, VisitsOffers, VisitsTaken};

use crate::sets::{ArmEnds, CaseEnds, Ends, Gather, Set, both, either, no_end, where_it};
use hc_core::{Arm, Case, Expr, Stmt, Target};
use hc_tree::{NoMemory, Node};

impl Gather {
    /// The dependencies of a statement, where a set decides its start, and what decides its pass and its finish.
    #[cycle(visit)]
    #[tactic(auto, using(hc_core::proofs::Read::reading))]
    pub(crate) fn visit(&mut self, start: Set, s: &Stmt) -> Result<Ends, NoMemory>
        ensures { IfOk result (λ e. Visits self.old self.new start e (statement s.now)) }
    {
        match s {
            Stmt::Skip => Ok(no_end(true)),
            Stmt::Delay { .. } => Ok(no_end(false)),
            Stmt::Assign { target, value, .. } => self.assign(start, target, value),
            Stmt::Send { chan, value, .. } => self.send(start, *chan, value),
            Stmt::Recv { chan, target, .. } => self.receive(start, *chan, target),
            Stmt::Prialt { cases, rest, .. } => match rest {
                None => self.prialt(start, cases.as_slice()),
                Some(rest) => self.prialt_else(start, cases.as_slice(), rest.get()),
            },
            Stmt::Seq { parts, .. } => self.sequence(start, parts.as_slice()),
            Stmt::Par { branches, .. } => self.parallel(start, branches.as_slice()),
            Stmt::If {
                condition,
                yes,
                no,
                ..
            } => self.choose(start, condition, yes.get(), no.get()),
            Stmt::While {
                condition,
                body,
                ..
            } => self.while_loop(start, condition, body.get()),
            Stmt::DoWhile {
                body,
                condition,
                ..
            } => self.do_loop(start, body.get(), condition),
            Stmt::Switch { selector, arms, .. } => self.switch(start, selector, arms.as_slice()),
        }
    }

    /// An assignment.
    fn assign(&mut self, start: Set, to: &Target, value: &Expr) -> Result<Ends, NoMemory>
        ensures { IfOk result (λ e. (place : Place) → Visits self.old self.new start e (program.Assign place (target to.now) (expression value.now))) }
    {
        self.target(start, to)?;
        let read = self.read(start, value)?;
        self.signal(start, read, to)?;
        Ok(no_end(false))
    }

    /// The dependencies of a signal that is assigned.
    fn signal(&mut self, start: Set, read: Set, to: &Target) -> Result<(), NoMemory>
        ensures { OnOk result (Assigns self.old self.new start read (target to.now)) }
    {
        match to {
            Target::Reg(_) => Ok(()),
            Target::Element(_, _) => Ok(()),
            Target::Word(_, _) => Ok(()),
            Target::Signal(k) => {
                let on = self.union(start, read)?;
                self.need(Node::Value(*k), on)
            }
        }
    }

    /// A plain send.
    fn send(&mut self, start: Set, chan: u32, value: &Expr) -> Result<Ends, NoMemory>
        ensures { IfOk result (λ e. (place : Place) → Visits self.old self.new start e (program.Send place chan (expression value.now))) }
    {
        self.need(Node::Sends(chan), start)?;
        self.read(start, value)?;
        Ok(no_end(false))
    }

    /// A plain receive.
    fn receive(&mut self, start: Set, chan: u32, to: &Target) -> Result<Ends, NoMemory>
        ensures { IfOk result (λ e. (place : Place) → Visits self.old self.new start e (program.Receive place chan (target to.now))) }
    {
        self.need(Node::Receives(chan), start)?;
        self.target(start, to)?;
        Ok(no_end(false))
    }

    /// A `prialt` without default.
    #[cycle(visit)]
    fn prialt(&mut self, start: Set, list: &[Case]) -> Result<Ends, NoMemory>
        ensures { IfOk result (λ e. (place : Place) → Visits self.old self.new start e (program.Prialt place (cases list.now))) }
    {
        let all = self.cases(start, list)?;
        Ok(Ends {
            zero: false,
            pass: Set::Empty,
            finish: all.finish,
        })
    }

    /// A `prialt` with a default, whose arm is started where no partner stands.
    #[cycle(visit)]
    fn prialt_else(&mut self, start: Set, list: &[Case], rest: &Stmt) -> Result<Ends, NoMemory>
        ensures { IfOk result (λ e. (place : Place) → Visits self.old self.new start e (program.PrialtElse place (cases list.now) (statement rest.now))) }
    {
        let all = self.cases(start, list)?;
        let inner = self.union(start, all.partners)?;
        let ends = self.visit(inner, rest)?;
        let decided = self.decided(all.partners, ends)?;
        let finish = self.union(all.finish, decided.finish)?;
        Ok(Ends {
            zero: decided.zero,
            pass: decided.pass,
            finish,
        })
    }

    /// The cases of a `prialt`.
    #[cycle(visit)]
    fn cases(&mut self, start: Set, list: &[Case]) -> Result<CaseEnds, NoMemory>
        ensures { IfOk result (λ e. VisitsCases self.old self.new start e (cases list.now)) }
    {
        let partners = self.offers(start, list)?;
        let finish = self.case_arms(list)?;
        Ok(CaseEnds { partners, finish })
    }

    /// The partners of cases, and the words that are accessed in their values and targets.
    fn offers(&mut self, start: Set, list: &[Case]) -> Result<Set, NoMemory>
        ensures { IfOk result (λ s. VisitsOffers self.old self.new start s (cases list.now)) }
    {
        let mut all = Set::Empty;
        let mut rest = list;
        while let [first, behind @ ..] = rest {
            let partner = self.offer(start, first)?;
            all = self.union(all, partner)?;
            rest = behind;
        }
        Ok(all)
    }

    /// The partner of one case.
    fn offer(&mut self, start: Set, case: &Case) -> Result<Set, NoMemory>
        ensures { IfOk result (λ s. VisitsOffers self.old self.new start s (cases (case.now ∷ []))) }
    {
        match case {
            Case::Send { chan, value, .. } => {
                self.read(start, value)?;
                Ok(Set::One(Node::Receives(*chan)))
            }
            Case::Recv { chan, target, .. } => {
                self.target(start, target)?;
                Ok(Set::One(Node::Sends(*chan)))
            }
        }
    }

    /// The arms of cases, and what decides that they finish.
    #[cycle(visit)]
    fn case_arms(&mut self, list: &[Case]) -> Result<Set, NoMemory>
        ensures { IfOk result (λ s. VisitsCaseArms self.old self.new s (cases list.now)) }
    {
        let mut all = Set::Empty;
        let mut rest = list;
        while let [first, behind @ ..] = rest {
            let finish = self.case_arm(first)?;
            all = self.union(all, finish)?;
            rest = behind;
        }
        Ok(all)
    }

    /// The arm of one case, which is started by no value of the clock.
    #[cycle(visit)]
    #[tactic(auto, using(hc_core::proofs::Read::reading))]
    fn case_arm(&mut self, case: &Case) -> Result<Set, NoMemory>
        ensures { IfOk result (λ s. VisitsCaseArms self.old self.new s (cases (case.now ∷ []))) }
    {
        match case {
            Case::Send { arm, .. } => self.taken(arm),
            Case::Recv { arm, .. } => self.taken(arm),
        }
    }

    /// The arm of the case that is taken, and what decides that it finishes.
    #[cycle(visit)]
    fn taken(&mut self, arm: &Stmt) -> Result<Set, NoMemory>
        ensures { IfOk result (λ s. VisitsTaken self.old self.new s (statement arm.now)) }
    {
        let ends = self.visit(Set::Empty, arm)?;
        let finish = self.union(ends.finish, ends.pass)?;
        Ok(finish)
    }

    /// One part after the other.
    #[cycle(visit)]
    fn sequence(&mut self, start: Set, parts: &[Stmt]) -> Result<Ends, NoMemory>
        ensures { IfOk result (λ e. (place : Place) → Visits self.old self.new start e (program.Seq place (statements parts.now))) }
    {
        match parts {
            [] => Ok(no_end(true)),
            [first, rest @ ..] => {
                let ends = self.visit(start, first)?;
                self.behind(start, ends, rest)
            }
        }
    }

    /// The parts of a sequence behind the first.
    #[cycle(visit)]
    fn behind(&mut self, start: Set, before: Ends, list: &[Stmt]) -> Result<Ends, NoMemory>
        ensures { IfOk result (λ e. VisitsBehind self.old self.new start before e (statements list.now)) }
    {
        let mut all = before;
        let mut rest = list;
        while let [first, behind @ ..] = rest {
            let inner = self.start_behind(start, all)?;
            let next = self.visit(inner, first)?;
            all = self.follow(all, next)?;
            rest = behind;
        }
        Ok(all)
    }

    /// All branches at the same time.
    #[cycle(visit)]
    fn parallel(&mut self, start: Set, branches: &[Stmt]) -> Result<Ends, NoMemory>
        ensures { IfOk result (λ e. (place : Place) → Visits self.old self.new start e (program.Par place (statements branches.now))) }
    {
        let mut all = no_end(true);
        let mut rest = branches;
        while let [first, behind @ ..] = rest {
            let next = self.visit(start, first)?;
            all = self.beside(both(all.zero, next.zero), all, next)?;
            rest = behind;
        }
        Ok(Ends {
            zero: all.zero,
            pass: where_it(all.zero, all.pass),
            finish: all.finish,
        })
    }

    /// One of two statements, by a condition.
    #[cycle(visit)]
    fn choose(
        &mut self,
        start: Set,
        condition: &Expr,
        yes: &Stmt,
        no: &Stmt,
    ) -> Result<Ends, NoMemory>
        ensures { IfOk result (λ e. (place : Place) → Visits self.old self.new start e (program.If place (expression condition.now) (statement yes.now) (statement no.now))) }
    {
        let read = self.read(start, condition)?;
        let inner = self.union(start, read)?;
        let yes = self.visit(inner, yes)?;
        let no = self.visit(inner, no)?;
        let both = self.beside(either(yes.zero, no.zero), yes, no)?;
        let ends = self.decided(read, both)?;
        Ok(ends)
    }

    /// A loop with its condition before the body: what is started by the loop is started by each finish of its body too.
    #[cycle(visit)]
    fn while_loop(&mut self, start: Set, condition: &Expr, body: &Stmt) -> Result<Ends, NoMemory>
        ensures { IfOk result (λ e. (place : Place) → Visits self.old self.new start e (program.While place (expression condition.now) (statement body.now))) }
    {
        let at = self.keep()?;
        let turn = Set::Union(at);
        let read = self.read(turn, condition)?;
        let inner = self.union(turn, read)?;
        let ends = self.visit(inner, body)?;
        self.fill(at, start, ends.finish);
        if always_holds(condition) {
            return Ok(no_end(false));
        }
        let finish = self.union(ends.finish, read)?;
        Ok(Ends {
            zero: true,
            pass: read,
            finish,
        })
    }

    /// A loop with its condition behind the body: its finish starts the body again.
    #[cycle(visit)]
    fn do_loop(&mut self, start: Set, body: &Stmt, condition: &Expr) -> Result<Ends, NoMemory>
        ensures { IfOk result (λ e. (place : Place) → Visits self.old self.new start e (program.DoWhile place (statement body.now) (expression condition.now))) }
    {
        let at = self.keep()?;
        let turn = Set::Union(at);
        let inner = self.union(start, turn)?;
        let ends = self.visit(inner, body)?;
        let read = self.read(ends.finish, condition)?;
        self.fill(at, ends.finish, read);
        Ok(Ends {
            zero: ends.zero,
            pass: Set::Empty,
            finish: turn,
        })
    }

    /// One of the arms, by a selector.
    #[cycle(visit)]
    fn switch(&mut self, start: Set, selector: &Expr, list: &[Arm]) -> Result<Ends, NoMemory>
        ensures { IfOk result (λ e. (place : Place) → Visits self.old self.new start e (program.Switch place (expression selector.now) (arms list.now))) }
    {
        let read = self.read(start, selector)?;
        let inner = self.union(start, read)?;
        let all = self.arms(inner, list)?;
        let both = Ends {
            zero: either(all.ends.zero, !all.other),
            pass: all.ends.pass,
            finish: all.ends.finish,
        };
        let ends = self.decided(read, both)?;
        Ok(ends)
    }

    /// The arms of a `switch`, of which one is taken.
    #[cycle(visit)]
    fn arms(&mut self, start: Set, list: &[Arm]) -> Result<ArmEnds, NoMemory>
        ensures { IfOk result (λ e. VisitsArms self.old self.new start e (arms list.now)) }
    {
        let mut all = no_end(false);
        let mut other = false;
        let mut rest = list;
        while let [first, behind @ ..] = rest {
            let next = self.visit(start, &first.body)?;
            all = self.beside(either(all.zero, next.zero), all, next)?;
            other = either(other, first.other);
            rest = behind;
        }
        Ok(ArmEnds { ends: all, other })
    }
}

/// Whether an expression is a constant that isn't 0.
#[tactic(auto, using(hc_core::proofs::Read::reading))]
fn always_holds(e: &Expr) -> bool
    ensures { result ≡ zeros.always_holds (expression e.now) }
{
    match e {
        Expr::Const(n) => n.bits() != 0,
        Expr::Reg(_) => false,
        Expr::Element(_, _) => false,
        Expr::Word(_, _) => false,
        Expr::Signal(_) => false,
        Expr::Input(_) => false,
        Expr::Unary(_, _) => false,
        Expr::Binary(_, _, _) => false,
        Expr::Slice(_, _, _) => false,
        Expr::Choice(_, _, _) => false,
    }
}
