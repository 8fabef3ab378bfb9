//! S16: the first loop whose body may take no clock, in one pass without memory. Lists are gone over by loops, so that the
//! recursion is as deep as statements are nested.

ghost use Rattle.std.specs.Prelude.{◌≡◌, ◌&&◌, ◌||◌, None, [], ◌∷◌};
ghost use Rattle.hc_core.specs.Read.{expression, statement, statements, cases, arms};
ghost use Rattle.hc_core.specs.Zero as zeros;
ghost use Rattle.hc_core.specs.Rules.{endless, nameless};
ghost use Rattle.hc_core.specs.FirstPlace as places;
ghost use Rattle.hc_core.specs.FirstPlace.{first_where, first_in, first_in_cases, first_in_arms};

use hc_core::{Arm, Case, Expr, Stmt};
use hc_tree::Place;

/// The place at which a rule is broken, and the number of the object that it names, if it names one.
pub(crate) type Breach = (Place, Option<u32>);

/// What S16 asks of a part of a core.
#[derive(Clone, Copy)]
struct Clocks {
    /// Whether the part may take no clock.
    zero: bool,
    /// The first loop in the part that breaks S16.
    endless: Option<Breach>,
}

/// The place of the first loop of a statement that breaks S16, an outer loop before those within it.
pub(crate) fn first_endless(s: &Stmt) -> Option<Breach>
    ensures { result ≡ first_where endless (statement s.now) }
{
    of_statement(s).endless
}

/// A statement, with all that stands within it.
#[cycle(clocks)]
#[tactic(auto, using(hc_core::proofs::Read::reading))]
fn of_statement(s: &Stmt) -> Clocks
    ensures zero { result.zero ≡ zeros.zero (statement s.now) }
    ensures endless { result.endless ≡ first_where endless (statement s.now) }
{
    match s {
        Stmt::Skip => alone(true),
        Stmt::Assign { .. } => alone(false),
        Stmt::Delay { .. } => alone(false),
        Stmt::Send { .. } => alone(false),
        Stmt::Recv { .. } => alone(false),
        Stmt::Prialt { cases, rest, .. } => {
            let endless = of_cases(cases.as_slice());
            match rest {
                None => Clocks {
                    zero: false,
                    endless,
                },
                Some(rest) => {
                    let rest = of_statement(rest.get());
                    Clocks {
                        zero: rest.zero,
                        endless: first_of(endless, rest.endless),
                    }
                }
            }
        }
        Stmt::Seq { parts, .. } => of_all(parts.as_slice()),
        Stmt::Par { branches, .. } => of_all(branches.as_slice()),
        Stmt::If { yes, no, .. } => {
            let yes = of_statement(yes.get());
            let no = of_statement(no.get());
            either(yes, no)
        }
        Stmt::While {
            place,
            condition,
            body,
        } => {
            let body = of_statement(body.get());
            Clocks {
                zero: !always_holds(condition),
                endless: at_loop(*place, body),
            }
        }
        Stmt::DoWhile { place, body, .. } => {
            let body = of_statement(body.get());
            Clocks {
                zero: body.zero,
                endless: at_loop(*place, body),
            }
        }
        Stmt::Switch { arms, .. } => {
            let taken = of_arms(arms.as_slice());
            Clocks {
                zero: taken.zero || !has_default(arms.as_slice()),
                endless: taken.endless,
            }
        }
    }
}

/// A statement that has no statement within it.
fn alone(zero: bool) -> Clocks
    ensures zero { result.zero ≡ zero }
    ensures endless { result.endless ≡ None }
{
    Clocks {
        zero,
        endless: None,
    }
}

/// Two parts of which each is done.
fn both(first: Clocks, next: Clocks) -> Clocks
    ensures zero { result.zero ≡ (first.zero && next.zero) }
    ensures endless { result.endless ≡ places.first_of first.endless next.endless }
{
    Clocks {
        zero: first.zero && next.zero,
        endless: first_of(first.endless, next.endless),
    }
}

/// Two parts of which one is done.
fn either(first: Clocks, next: Clocks) -> Clocks
    ensures zero { result.zero ≡ (first.zero || next.zero) }
    ensures endless { result.endless ≡ places.first_of first.endless next.endless }
{
    Clocks {
        zero: first.zero || next.zero,
        endless: first_of(first.endless, next.endless),
    }
}

/// The place of a loop with this body if it breaks S16, else that of the first loop within the body that does.
fn at_loop(place: Place, body: Clocks) -> Option<Breach>
    ensures { result ≡ places.here_or place (nameless body.zero) body.endless }
{
    if body.zero {
        Some((place, None))
    } else {
        body.endless
    }
}

/// The first of two places, if there is one.
fn first_of(first: Option<Breach>, rest: Option<Breach>) -> Option<Breach>
    ensures { result ≡ places.first_of first rest }
{
    match first {
        Some(found) => Some(found),
        None => rest,
    }
}

/// Whether an expression is a constant that isn't 0.
#[tactic(auto, using(hc_core::proofs::Read::reading))]
fn always_holds(e: &Expr) -> bool
    ensures { result ≡ zeros.always_holds (expression e.now) }
{
    match e {
        Expr::Const(n) => n.bits() != 0,
        Expr::Reg(_) => false,
        Expr::Element(_, _) => false,
        Expr::Word(_, _) => false,
        Expr::Signal(_) => false,
        Expr::Input(_) => false,
        Expr::Unary(_, _) => false,
        Expr::Binary(_, _, _) => false,
        Expr::Slice(_, _, _) => false,
        Expr::Choice(_, _, _) => false,
    }
}

/// The statements of a list, which may take no clock where each of them may.
#[cycle(clocks)]
#[tactic(auto, using(hc_core::proofs::Read::reading))]
fn of_all(list: &[Stmt]) -> Clocks
    ensures zero { result.zero ≡ zeros.all_zero (statements list.now) }
    ensures endless { result.endless ≡ first_in endless (statements list.now) }
{
    let mut all = alone(true);
    let mut rest = list;
    while let [first, behind @ ..] = rest {
        let next = of_statement(first);
        all = both(all, next);
        rest = behind;
    }
    all
}

/// The place of the first loop in the arm of a case that breaks S16.
#[cycle(clocks)]
#[tactic(auto, using(hc_core::proofs::Read::reading, crate::proofs::Places::nothing_behind))]
fn of_case(case: &Case) -> Option<Breach>
    ensures { result ≡ first_in_cases endless (cases (case.now ∷ [])) }
{
    match case {
        Case::Send { arm, .. } => of_statement(arm).endless,
        Case::Recv { arm, .. } => of_statement(arm).endless,
    }
}

/// The place of the first loop in the cases of a `prialt` that breaks S16.
#[cycle(clocks)]
#[tactic(auto, using(hc_core::proofs::Read::reading))]
fn of_cases(list: &[Case]) -> Option<Breach>
    ensures { result ≡ first_in_cases endless (cases list.now) }
{
    let mut rest = list;
    while let [first, behind @ ..] = rest {
        match of_case(first) {
            Some(found) => return Some(found),
            None => {}
        }
        rest = behind;
    }
    None
}

/// The arms of a `switch`, one of which is taken.
#[cycle(clocks)]
#[tactic(auto, using(hc_core::proofs::Read::reading))]
fn of_arms(list: &[Arm]) -> Clocks
    ensures zero { result.zero ≡ zeros.some_zero (arms list.now) }
    ensures endless { result.endless ≡ first_in_arms endless (arms list.now) }
{
    let mut all = alone(false);
    let mut rest = list;
    while let [first, behind @ ..] = rest {
        let next = of_statement(&first.body);
        all = either(all, next);
        rest = behind;
    }
    all
}

/// Whether an arm of a `switch` has the label `default`.
#[tactic(auto, using(hc_core::proofs::Read::reading))]
fn has_default(list: &[Arm]) -> bool
    ensures { result ≡ zeros.has_default (arms list.now) }
{
    let mut rest = list;
    while let [first, behind @ ..] = rest {
        if first.other {
            return true;
        }
        rest = behind;
    }
    false
}
