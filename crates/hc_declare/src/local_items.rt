ghost use Rattle.std.specs.Prelude.{◌≡◌, OnOk};
ghost use Rattle.hc_core.specs.Typed.{kinds_of};
ghost use Rattle.hc_scope.specs.Expansion.{and_then};
ghost use Rattle.hc_scope.specs.Nodes.{nodes};
ghost use Rattle.hc_scope.specs.Sound.{AreSound, Grows};
ghost use Rattle.hc_scope.specs.Statement as spec;
ghost use Rattle.hc_scope.specs.Table.{context_in, AnswersNames};
ghost use Rattle.hc_tree.specs.declared.stmt.LocalItem.{out-LocalItem};

use crate::declaration::declaration;
use hc_scope::{Names, Scope, State, enter, macro_form, macro_place};
use hc_tree::{FrontErr, LocalItem, Macro};
use std::alloc::Global;

/// What a block declares, one item after another: objects are made, and names declared, up to the first rule or limit that an
/// item breaks.
#[tactic(auto, using(hc_scope::proofs::Longer::grows_not, hc_scope::proofs::Longer::grows_on))]
pub fn locals<'s, 't>(
    alloc: Global,
    state: &mut State,
    names: &mut Names<'t>,
    around: &'s Scope<'s, 't>,
    calls: u32,
    room: u32,
    mut items: &'t [LocalItem],
) -> Result<(), FrontErr>
    requires sound { AreSound (kinds_of state.old.objects) }
    ensures answers { AnswersNames names.new.entries around.now calls
        (spec.locals (nodes room) (context_in names.old.entries around.now calls) items.entry.now state.old) result state.new }
    ensures grows { OnOk result (Grows state.old.objects state.new.objects) }
{
    'each: while let [item, rest @ ..] = items {
        match local(alloc, state, names, around, calls, room, item) {
            Ok(()) => items = rest,
            Err(e) => return Err(e),
        }
    }
    Ok(())
}

// What a block declares: a declaration or a macro.
fn local<'s, 't>(
    alloc: Global,
    state: &mut State,
    names: &mut Names<'t>,
    around: &'s Scope<'s, 't>,
    calls: u32,
    room: u32,
    item: &'t LocalItem,
) -> Result<(), FrontErr>
    requires sound { AreSound (kinds_of state.old.objects) }
    ensures answers { AnswersNames names.new.entries around.now calls
        (spec.local_layer (nodes room) (context_in names.old.entries around.now calls) (out-LocalItem item.now) state.old) result state.new }
    ensures grows { OnOk result (Grows state.old.objects state.new.objects) }
{
    match item {
        LocalItem::Decl(d) => declaration(alloc, state, names, around, calls, room, d),
        LocalItem::Macro(m) => local_macro(alloc, state, names, around, calls, room, m),
    }
}

// A macro, which is a node without parts.
#[tactic(auto, using(crate::proofs::Leaves::leaf_is, hc_scope::proofs::Longer::grows_not))]
fn local_macro<'s, 't>(
    alloc: Global,
    state: &mut State,
    names: &mut Names<'t>,
    around: &'s Scope<'s, 't>,
    calls: u32,
    room: u32,
    m: &'t Macro,
) -> Result<(), FrontErr>
    requires sound { AreSound (kinds_of state.old.objects) }
    ensures answers { let c = context_in names.old.entries around.now calls in
        AnswersNames names.new.entries around.now calls
        (and_then ((nodes room).leaf c (spec.macro_place m.now) state.old) (λ u. spec.macro_form c m.now)) result state.new }
    ensures grows { OnOk result (Grows state.old.objects state.new.objects) }
{
    match enter(state, false, calls, macro_place(m), room) {
        Ok(()) => macro_form(alloc, state, names, around, calls, m),
        Err(e) => Err(e),
    }
}
