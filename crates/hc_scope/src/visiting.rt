ghost use Rattle.std.specs.Prelude.{◌≡◌, ◌≤◌, ◌<◌, true, IfOk};
ghost use Rattle.hc_scope.specs.Expansion as spec;
ghost use Rattle.hc_scope.specs.Expression as names;
ghost use Rattle.hc_scope.specs.Reading.{scope_of, meaning_of, Answers};
ghost use Rattle.hc_scope.specs.Parts as parts;
ghost use Rattle.hc_scope.specs.Scope as spec_scope;

use crate::refusal::broken;
use crate::scope::{Meaning, Scope, find};
use crate::state::State;
use hc_tree::{ExprTree, FrontErr, Place, Rule, Simple};

// The greatest number of macro calls around a macro call, and of nodes that are visited.
const MOST_CALLS: u32 = 200;

const MOST_NODES: u32 = 1_000_000;

/// Visits a node: L4 at its place where it is a macro call within 200 calls, then L5 where it is the 1,000,001st node.
#[tactic(auto, unfolding(crate::specs::Expansion::visit))]
pub fn visit(state: &mut State, is_call: bool, calls: u32, place: Place) -> Result<(), FrontErr>
    ensures answers { Answers (λ u. u) (spec.visit is_call calls place state.old) result state.new }
    ensures few { IfOk result (λ u. is_call ≡ true → calls < 200) }
    ensures objects { state.new.objects ≡ state.old.objects }
{
    if is_call && calls >= MOST_CALLS {
        Err(broken(Rule::L4, place))
    } else if state.visited >= MOST_NODES {
        Err(broken(Rule::L5, place))
    } else {
        state.visited += 1;
        Ok(())
    }
}

/// Visits a node around which `room` more nodes may be open: L4 and L5 as for `visit`, then L6 at its place where `room` is 0.
pub fn enter(
    state: &mut State,
    is_call: bool,
    calls: u32,
    place: Place,
    room: u32,
) -> Result<(), FrontErr>
    ensures answers { Answers (λ u. u) (spec.entered room is_call calls place state.old) result state.new }
    ensures few { IfOk result (λ u. is_call ≡ true → calls < 200) }
    ensures open { IfOk result (λ u. 1 ≤ room) }
    ensures objects { state.new.objects ≡ state.old.objects }
{
    match visit(state, is_call, calls, place) {
        Ok(()) => {
            if room == 0 {
                Err(broken(Rule::L6, place))
            } else {
                Ok(())
            }
        }
        Err(e) => Err(e),
    }
}

/// Whether an expression is a macro call, which L4 counts: also a macro expression that is named without brackets.
pub fn is_call(scope: &Scope<'_, '_>, e: &ExprTree) -> bool
    ensures { result ≡ names.is_call (scope_of scope.now) e.now }
{
    match e {
        ExprTree::Number { .. } => false,
        ExprTree::Name(x) => is_macro(scope, x.name.as_bytes()),
        ExprTree::Call { .. } => true,
        ExprTree::Port { .. } => false,
        ExprTree::Width { .. } => false,
        ExprTree::Select { .. } => false,
        ExprTree::Index { .. } => false,
        ExprTree::Bits { .. } => false,
        ExprTree::Unary { .. } => false,
        ExprTree::Cast { .. } => false,
        ExprTree::Binary { .. } => false,
        ExprTree::Choice { .. } => false,
    }
}

/// Whether a name is that of a macro expression.
pub fn is_macro(scope: &Scope<'_, '_>, name: &[u8]) -> bool
    ensures { result ≡ names.is_macro (spec_scope.find name.now (scope_of scope.now)) }
{
    match find(scope, name) {
        Some(found) => is_expression(&found.meaning),
        None => false,
    }
}

// Whether a meaning is that of a macro expression.
fn is_expression(meaning: &Meaning<'_, '_>) -> bool
    ensures { result ≡ names.is_macro_expression (meaning_of meaning.now) }
{
    match meaning {
        Meaning::Object(_) => false,
        Meaning::Interface(_, _) => false,
        Meaning::Number(_) => false,
        Meaning::Expression(_, _) => true,
        Meaning::Procedure(_, _) => false,
        Meaning::Argument(_, _) => false,
    }
}

/// The place of an expression, by line and column from 1.
pub fn place_of(e: &ExprTree) -> Place
    ensures { result ≡ parts.place_of e.now }
{
    match e {
        ExprTree::Number { place, .. } => *place,
        ExprTree::Name(x) => x.place,
        ExprTree::Call { name, .. } => name.place,
        ExprTree::Port { interface, .. } => interface.place,
        ExprTree::Width { place, .. } => *place,
        ExprTree::Select { place, .. } => *place,
        ExprTree::Index { place, .. } => *place,
        ExprTree::Bits { place, .. } => *place,
        ExprTree::Unary { place, .. } => *place,
        ExprTree::Cast { place, .. } => *place,
        ExprTree::Binary { place, .. } => *place,
        ExprTree::Choice { place, .. } => *place,
    }
}

/// The place of a part of `for` or of a replicator's step, by line and column from 1.
pub fn simple_place(simple: &Simple) -> Place
    ensures { result ≡ parts.simple_place simple.now }
{
    match simple {
        Simple::Assign { place, .. } => *place,
        Simple::After { place, .. } => *place,
        Simple::Before { place, .. } => *place,
    }
}
