ghost use Rattle.std.specs.Prelude.{◌≡◌, ◌<◌, ◌^◌, All, Some, IfOk, IfErr};
ghost use Rattle.std.specs.List.{list_any};
ghost use Rattle.hc_core.specs.Parts.{parts_of};
ghost use Rattle.hc_core.specs.Sound.{HasLabelBytes, IsSound};
ghost use Rattle.hc_core.specs.Typed.{kinds_of};
ghost use Rattle.hc_core.specs.declared.object.Core as a_core;
ghost use Rattle.hc_tree.specs.declared.refusal.Refusal as a_refusal;
ghost use Rattle.hc_expand.specs.Answered.{IfRefused, IsCore, IsRefusal};
ghost use Rattle.hc_scope.specs.Expands as spec;
ghost use Rattle.hc_declare.specs.Items.{pin_read, body_read, nothing_made, IsPin, HasPorts, AnswersCore};
ghost use Rattle.hc_scope.specs.Plain.{IsPlainItem};
ghost use Rattle.hc_scope.specs.Reading.{scope_of, context_of};
ghost use Rattle.hc_scope.specs.Sound.{AreSound};
ghost use Rattle.hc_expand.specs.Spelled.{IsSpelled};

use crate::statement::main_block;
use hc_core::{Core, Stmt};
use hc_declare::{Roots, each_item};
use hc_scope::{Names, Scope, State, all_of, broken_word};
use hc_tree::{Block, FrontErr, Item, Name, Place, Rule, Tree};
use sqlite_items::Items;
use std::alloc::Global;

// The place of what a tree lacks.
const FIRST: Place = Place { line: 1, column: 1 };

/// The core that a tree expands to, or the first of the rules and limits that it breaks: S23 before all others where it has
/// no `set clock` or no `main`.
#[tactic(auto, using(crate::proofs::Spelled::plain_items))]
pub fn expand(alloc: Global, tree: &Tree) -> Result<Core, FrontErr>
    requires spelled { IsSpelled tree.now }
    ensures core { IfOk result (λ core. spec.Expands tree.now core) }
    ensures sound { IfOk result IsSound }
    ensures refused { IfErr result (λ e. IfRefused e (spec.Stops tree.now)) }
    ensures accepts { (core : a_core.Core) → spec.Expands tree.now core → IsCore core result }
    ensures refuses { (r : a_refusal.Refusal) → spec.Stops tree.now r → IsRefusal r result }
{
    expanded(alloc, tree.items.as_slice())
}

// The core of a tree's items.
pub(crate) fn expanded(alloc: Global, items: &[Item]) -> Result<Core, FrontErr>
    requires plain { All IsPlainItem items.now }
    ensures answers { AnswersCore (spec.checked items.now (list_any spec.is_clock items.now) (list_any spec.is_main items.now) nothing_made) result }
    ensures sound { IfOk result (λ core. parts_of core < 2 ^ 32 → IsSound core) }
{
    if !has_clock(items) {
        Err(broken_word(alloc, Rule::S23, FIRST, b"clock"))
    } else if !has_main(items) {
        Err(broken_word(alloc, Rule::S23, FIRST, b"main"))
    } else {
        whole(alloc, items)
    }
}

fn is_clock(x: &Item) -> bool
    ensures { result ≡ spec.is_clock x.now }
{
    match x {
        Item::Clock { .. } => true,
        Item::Family { .. } => false,
        Item::Part { .. } => false,
        Item::Decl(_) => false,
        Item::Interface(_) => false,
        Item::Macro(_) => false,
        Item::Main { .. } => false,
    }
}

fn is_main(x: &Item) -> bool
    ensures { result ≡ spec.is_main x.now }
{
    match x {
        Item::Clock { .. } => false,
        Item::Family { .. } => false,
        Item::Part { .. } => false,
        Item::Decl(_) => false,
        Item::Interface(_) => false,
        Item::Macro(_) => false,
        Item::Main { .. } => true,
    }
}

fn has_clock(items: &[Item]) -> bool
    ensures { result ≡ list_any spec.is_clock items.now }
{
    items.iter().any(|x| is_clock(x))
}

fn has_main(items: &[Item]) -> bool
    ensures { result ≡ list_any spec.is_main items.now }
{
    items.iter().any(|x| is_main(x))
}

// Items, and then the body of `main`.
fn whole(alloc: Global, items: &[Item]) -> Result<Core, FrontErr>
    requires plain { All IsPlainItem items.now }
    ensures answers { AnswersCore (spec.whole items.now nothing_made) result }
    ensures sound { IfOk result (λ core. parts_of core < 2 ^ 32 → IsSound core) }
{
    let mut state = State {
        objects: Items::new(alloc),
        visited: 0,
    };
    let mut names = Names::new(alloc);
    let outside = Scope::Outside;
    let none = Roots {
        clock: None,
        main: None,
    };
    match each_item(alloc, &mut state, &mut names, &outside, none, items) {
        Ok(roots) => rooted(alloc, state, &all_of(&names, &outside), roots),
        Err(e) => Err(e),
    }
}

// The core of these roots, behind all items.
fn rooted<'s, 't>(
    alloc: Global,
    state: State,
    scope: &'s Scope<'s, 't>,
    roots: Roots<'t>,
) -> Result<Core, FrontErr>
    requires kinds { AreSound (kinds_of state.objects) }
    requires pin { IsPin roots.clock }
    requires ports { HasPorts (scope_of scope.now) state.objects }
    ensures answers { AnswersCore (spec.main_of (context_of scope.now 0) (pin_read roots.entry.clock) (body_read roots.entry.main) state) result }
    ensures sound { IfOk result (λ core. parts_of core < 2 ^ 32 → IsSound core) }
{
    match roots.clock {
        None => {
            drop(state);
            Err(broken_word(alloc, Rule::S23, FIRST, b"clock"))
        }
        Some(clock) => match roots.main {
            None => {
                drop(state);
                Err(broken_word(alloc, Rule::S23, FIRST, b"main"))
            }
            Some(body) => core(alloc, state, scope, clock, body),
        },
    }
}

// The core with the body of `main`.
fn core<'s, 't>(
    alloc: Global,
    mut state: State,
    scope: &'s Scope<'s, 't>,
    clock: &Name,
    body: &'t Block,
) -> Result<Core, FrontErr>
    requires kinds { AreSound (kinds_of state.objects) }
    requires pin { HasLabelBytes clock.now }
    requires ports { HasPorts (scope_of scope.now) state.objects }
    ensures answers { AnswersCore (spec.main_of (context_of scope.now 0) (Some clock.now) (Some body.now) state) result }
    ensures sound { IfOk result (λ core. parts_of core < 2 ^ 32 → IsSound core) }
{
    match main_block(alloc, &mut state, scope, 0, body) {
        Ok(parts) => match Name::new(alloc, clock.as_bytes()) {
            Ok(clock) => Ok(Core {
                objects: state.objects,
                main: Stmt::Seq {
                    place: body.place,
                    parts,
                },
                clock,
            }),
            Err(_) => {
                drop(parts);
                drop(state);
                Err(FrontErr::NoMemory)
            }
        },
        Err(e) => {
            drop(state);
            Err(e)
        }
    }
}
