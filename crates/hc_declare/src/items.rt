ghost use Rattle.std.specs.Prelude.{◌≡◌, All, IfOk, OnOk};
ghost use Rattle.hc_core.specs.Sound.{HasLabelBytes};
ghost use Rattle.hc_core.specs.Typed.{kinds_of};
ghost use Rattle.hc_scope.specs.Expands as spec;
ghost use Rattle.hc_declare.specs.Items.{pin_read, body_read, items_in, item_node, IsPin, HasPorts, ItemGrows};
ghost use Rattle.hc_scope.specs.Nodes.{nodes};
ghost use Rattle.hc_scope.specs.Plain.{IsPlainItem};
ghost use Rattle.hc_scope.specs.Reading.{scope_in, scope_of, Answers};
ghost use Rattle.hc_scope.specs.Sound.{AreSound};
ghost use Rattle.hc_scope.specs.Table.{Entries};
ghost use Rattle.hc_scope.specs.declared.scope.Scope as code;
ghost use Rattle.hc_scope.specs.declared.state.State as the_state;

use crate::declaration::declaration;
use crate::interface::interface_form;
use hc_scope::{Names, Scope, State, broken_word, macro_form, macro_place, visit};
use hc_tree::{Block, Decl, FrontErr, Interface, Item, Name, Place, Rule};
use std::alloc::Global;

// The nodes that may be open around a part of an item.
const ROOM: u32 = 2000;

/// What the items so far have given beside names, if they have.
#[derive(Clone, Copy)]
pub struct Roots<'t> {
    /// The pin of the clock.
    pub clock: Option<&'t Name>,
    /// The body of `main`.
    pub main: Option<&'t Block>,
}

/// Items one after another, behind those that have given these roots: objects are made, and names declared. The first rule or
/// limit that an item breaks ends them; S5 is that of a name, a second clock or a second `main`. The names of ports differ.
pub fn each_item<'s, 't>(
    alloc: Global,
    state: &mut State,
    names: &mut Names<'t>,
    around: &'s Scope<'s, 't>,
    mut roots: Roots<'t>,
    mut list: &'t [Item],
) -> Result<Roots<'t>, FrontErr>
    requires sound { AreSound (kinds_of state.old.objects) }
    requires plain { All IsPlainItem list.now }
    requires pin { IsPin roots.clock }
    requires ports { HasPorts (scope_in names.old.entries (scope_of around.now)) state.old.objects }
    ensures answers { Answers (items_in names.new.entries around.now)
        (spec.items (nodes 2000) (items_in names.old.entries around.now roots.entry) list.entry.now state.old) result state.new }
    ensures sound { OnOk result (AreSound (kinds_of state.new.objects)) }
    ensures pin { IfOk result (λ r. IsPin r.clock) }
    ensures ports { OnOk result (HasPorts (scope_in names.new.entries (scope_of around.now)) state.new.objects) }
{
    while let [first, rest @ ..] = list {
        match item(alloc, state, names, around, roots, first) {
            Ok(next) => {
                roots = next;
                list = rest;
            }
            Err(e) => return Err(e),
        }
    }
    Ok(roots)
}

// An item, which is a node.
fn item<'s, 't>(
    alloc: Global,
    state: &mut State,
    names: &mut Names<'t>,
    around: &'s Scope<'s, 't>,
    roots: Roots<'t>,
    x: &'t Item,
) -> Result<Roots<'t>, FrontErr>
    requires sound { AreSound (kinds_of state.old.objects) }
    requires plain { IsPlainItem x.now }
    requires pin { IsPin roots.clock }
    ensures answers { Answers (items_in names.new.entries around.now)
        (item_node (nodes 2000) (items_in names.old.entries around.now roots.entry) x.now state.old) result state.new }
    ensures grows { OnOk result (ItemGrows x.now state.old.objects state.new.objects) }
    ensures pin { IfOk result (λ r. IsPin r.clock) }
{
    match visit(state, false, 0, item_place(x)) {
        Ok(()) => item_form(alloc, state, names, around, roots, x),
        Err(e) => Err(e),
    }
}

// What an item adds to names and roots.
#[tactic(auto, using(hc_scope::proofs::Longer::grows_not), unfolding(hc_scope::specs::Expands::item_form))]
fn item_form<'s, 't>(
    alloc: Global,
    state: &mut State,
    names: &mut Names<'t>,
    around: &'s Scope<'s, 't>,
    roots: Roots<'t>,
    x: &'t Item,
) -> Result<Roots<'t>, FrontErr>
    requires sound { AreSound (kinds_of state.old.objects) }
    requires plain { IsPlainItem x.now }
    requires pin { IsPin roots.clock }
    ensures answers { Answers (items_in names.new.entries around.now)
        (spec.item_form (nodes 2000) (items_in names.old.entries around.now roots.entry) x.now state.old) result state.new }
    ensures grows { OnOk result (ItemGrows x.now state.old.objects state.new.objects) }
    ensures pin { IfOk result (λ r. IsPin r.clock) }
{
    match x {
        Item::Clock { place, pin, .. } => with_clock(alloc, roots, *place, pin),
        Item::Family { .. } => Ok(roots),
        Item::Part { .. } => Ok(roots),
        Item::Decl(d) => match declaration(alloc, state, names, around, 0, ROOM, d) {
            Ok(()) => Ok(roots),
            Err(e) => Err(e),
        },
        Item::Interface(i) => match interface_form(alloc, state, names, around, 0, ROOM, i) {
            Ok(()) => Ok(roots),
            Err(e) => Err(e),
        },
        Item::Macro(m) => match macro_form(alloc, state, names, around, 0, m) {
            Ok(()) => Ok(roots),
            Err(e) => Err(e),
        },
        Item::Main { place, body, .. } => with_main(alloc, roots, *place, body),
    }
}

// The clock pin: S5 where it is set already.
fn with_clock<'t>(
    alloc: Global,
    roots: Roots<'t>,
    place: Place,
    pin: &'t Name,
) -> Result<Roots<'t>, FrontErr>
    requires plain { HasLabelBytes pin.now }
    ensures answers { (entries : Entries) (around : code.Scope) (s : the_state.State) → Answers (items_in entries around)
        (spec.with_clock (items_in entries around roots.entry) place pin.now (pin_read roots.entry.clock) s) result s }
    ensures pin { IfOk result (λ r. IsPin r.clock) }
{
    match roots.clock {
        None => Ok(Roots {
            clock: Some(pin),
            main: roots.main,
        }),
        Some(_) => Err(broken_word(alloc, Rule::S5, place, b"clock")),
    }
}

// The body of `main`: S5 where there is one already.
fn with_main<'t>(
    alloc: Global,
    roots: Roots<'t>,
    place: Place,
    body: &'t Block,
) -> Result<Roots<'t>, FrontErr>
    requires pin { IsPin roots.clock }
    ensures answers { (entries : Entries) (around : code.Scope) (s : the_state.State) → Answers (items_in entries around)
        (spec.with_main (items_in entries around roots.entry) place body.now (body_read roots.entry.main) s) result s }
    ensures pin { IfOk result (λ r. IsPin r.clock) }
{
    match roots.main {
        None => Ok(Roots {
            clock: roots.clock,
            main: Some(body),
        }),
        Some(_) => Err(broken_word(alloc, Rule::S5, place, b"main")),
    }
}

// ---- places

fn decl_place(d: &Decl) -> Place
    ensures { result ≡ spec.decl_place d.now }
{
    match d {
        Decl::Vars { place, .. } => *place,
        Decl::Memories { place, .. } => *place,
        Decl::Signals { place, .. } => *place,
        Decl::Chans { place, .. } => *place,
    }
}

fn interface_place(i: &Interface) -> Place
    ensures { result ≡ spec.interface_place i.now }
{
    match i {
        Interface::BusIn { place, .. } => *place,
        Interface::BusOut { place, .. } => *place,
    }
}

// The place of an item.
fn item_place(x: &Item) -> Place
    ensures { result ≡ spec.item_place x.now }
{
    match x {
        Item::Clock { place, .. } => *place,
        Item::Family { place, .. } => *place,
        Item::Part { place, .. } => *place,
        Item::Decl(d) => decl_place(d),
        Item::Interface(i) => interface_place(i),
        Item::Macro(m) => macro_place(m),
        Item::Main { place, .. } => *place,
    }
}
