//! The first form of a core that isn't built yet: objects by number, and then statements, an outer one before those within
//! it. Lists are gone over by loops, so that the recursion is as deep as statements and expressions are nested.

ghost use Rattle.std.specs.Prelude.{◌≡◌, None, not};
ghost use Rattle.hc_core.specs.FirstPlace.{first_object, here_or};
ghost use Rattle.hc_core.specs.Program.{Assign};
ghost use Rattle.hc_core.specs.Rules.{nameless};
ghost use Rattle.hc_core.specs.Read.{expression, target, statement, statements, arms};
ghost use Rattle.hc_control.specs.Built as forms;
ghost use Rattle.hc_control.specs.Built.{unbuilt_statement, unbuilt_parts, unbuilt_arms};
ghost use Rattle.hc_build.specs.Built as built;
ghost use Rattle.hc_build.specs.Built.{unbuilt_kind, place_of};

use hc_core::{Arm, Core, Expr, Kind, Object, Stmt, Target};
use hc_tree::Place;

/// The place of the first form of a core that isn't built, if there is one. The rule serves only until all forms are built.
#[tactic(auto, unfolding(crate::specs::Built::unbuilt))]
pub fn unbuilt(core: &Core) -> Option<Place>
    ensures { result ≡ built.unbuilt core.now }
{
    match of_objects(core.objects.as_slice()) {
        Some(place) => Some(place),
        None => of_statement(&core.main),
    }
}

/// The place of the first object that isn't built.
fn of_objects(objects: &[Object]) -> Option<Place>
    ensures { result ≡ place_of (first_object unbuilt_kind 0 objects.now) }
{
    let mut rest = objects;
    while let [first, behind @ ..] = rest {
        if !is_built_kind(&first.kind) {
            return Some(first.place);
        }
        rest = behind;
    }
    None
}

/// Whether an object of this kind is built.
fn is_built_kind(kind: &Kind) -> bool
    ensures { result ≡ built.is_built_kind kind.now }
{
    match kind {
        Kind::Reg { .. } => true,
        Kind::Array { .. } => true,
        Kind::Ram { .. } => false,
        Kind::Rom { .. } => false,
        Kind::Signal { .. } => false,
        Kind::Chan { .. } => false,
        Kind::Input { .. } => true,
        Kind::Output { value, .. } => is_built_expression(value),
    }
}

/// The place of the first statement that isn't built.
#[cycle(unbuilt)]
#[tactic(auto, using(hc_core::proofs::Read::reading))]
fn of_statement(s: &Stmt) -> Option<Place>
    ensures { result ≡ place_of (unbuilt_statement (statement s.now)) }
{
    match s {
        Stmt::Skip => None,
        Stmt::Assign {
            place,
            target,
            value,
        } => of_assignment(*place, target, value),
        Stmt::Delay { .. } => None,
        Stmt::Send { place, .. } => Some(*place),
        Stmt::Recv { place, .. } => Some(*place),
        Stmt::Prialt { place, .. } => Some(*place),
        Stmt::Seq { parts, .. } => of_parts(parts.as_slice()),
        Stmt::Par { branches, .. } => of_parts(branches.as_slice()),
        Stmt::If {
            place,
            condition,
            yes,
            no,
        } => match unless_built(*place, condition) {
            Some(place) => Some(place),
            None => match of_statement(yes.get()) {
                Some(place) => Some(place),
                None => of_statement(no.get()),
            },
        },
        Stmt::While {
            place,
            condition,
            body,
        } => match unless_built(*place, condition) {
            Some(place) => Some(place),
            None => of_statement(body.get()),
        },
        Stmt::DoWhile {
            place,
            body,
            condition,
        } => match unless_built(*place, condition) {
            Some(place) => Some(place),
            None => of_statement(body.get()),
        },
        Stmt::Switch {
            place,
            selector,
            arms,
        } => match unless_built(*place, selector) {
            Some(place) => Some(place),
            None => of_arms(arms.as_slice()),
        },
    }
}

/// The place of the first part that isn't built, or that has such a statement within it.
#[cycle(unbuilt)]
#[tactic(auto, using(hc_core::proofs::Read::reading))]
fn of_parts(parts: &[Stmt]) -> Option<Place>
    ensures { result ≡ place_of (unbuilt_parts (statements parts.now)) }
{
    let mut rest = parts;
    while let [first, behind @ ..] = rest {
        match of_statement(first) {
            Some(place) => return Some(place),
            None => {}
        }
        rest = behind;
    }
    None
}

/// The place of the first arm that has a statement within it that isn't built.
#[cycle(unbuilt)]
#[tactic(auto, using(hc_core::proofs::Read::reading))]
fn of_arms(list: &[Arm]) -> Option<Place>
    ensures { result ≡ place_of (unbuilt_arms (arms list.now)) }
{
    let mut rest = list;
    while let [first, behind @ ..] = rest {
        match of_statement(&first.body) {
            Some(place) => return Some(place),
            None => {}
        }
        rest = behind;
    }
    None
}

/// The place of a statement, where its condition isn't built.
fn unless_built(place: Place, e: &Expr) -> Option<Place>
    ensures { result ≡ place_of (here_or place (nameless (not (forms.is_built_expression (expression e.now)))) None) }
{
    if is_built_expression(e) {
        None
    } else {
        Some(place)
    }
}

/// The place of an assignment that isn't built.
fn of_assignment(place: Place, to: &Target, value: &Expr) -> Option<Place>
    ensures { result ≡ place_of (unbuilt_statement (Assign place (target to.now) (expression value.now))) }
{
    if is_built_target(to) && is_built_expression(value) {
        None
    } else {
        Some(place)
    }
}

/// Whether a target is built.
#[tactic(auto, using(hc_core::proofs::Read::reading))]
fn is_built_target(to: &Target) -> bool
    ensures { result ≡ forms.is_built_target (target to.now) }
{
    match to {
        Target::Reg(_) => true,
        Target::Element(_, i) => is_built_expression(i),
        Target::Word(_, _) => false,
        Target::Signal(_) => false,
    }
}

/// Whether an expression is built. The recursion is as deep as it is nested.
#[tactic(auto, using(hc_core::proofs::Read::reading))]
fn is_built_expression(e: &Expr) -> bool
    ensures { result ≡ forms.is_built_expression (expression e.now) }
{
    match e {
        Expr::Const(_) => true,
        Expr::Reg(_) => true,
        Expr::Element(_, i) => is_built_expression(i.get()),
        Expr::Word(_, _) => false,
        Expr::Signal(_) => false,
        Expr::Input(_) => true,
        Expr::Unary(_, a) => is_built_expression(a.get()),
        Expr::Binary(_, a, b) => is_built_expression(a.get()) && is_built_expression(b.get()),
        Expr::Slice(a, _, _) => is_built_expression(a.get()),
        Expr::Choice(c, a, b) => {
            is_built_expression(c.get())
                && (is_built_expression(a.get()) && is_built_expression(b.get()))
        }
    }
}
