ghost use Rattle.std.specs.Prelude.{◌≡◌, [], ◌∷◌, map, OnOk, MatchOption};
ghost use Rattle.hc_core.specs.Sound.{IsWidth};
ghost use Rattle.hc_core.specs.Typed.{kinds_of};
ghost use Rattle.hc_scope.specs.Declaration as spec;
ghost use Rattle.hc_declare.specs.NamesRead.{name_read, list_read};
ghost use Rattle.hc_scope.specs.Nodes.{nodes};
ghost use Rattle.hc_scope.specs.Sound.{AreSound, Grows};
ghost use Rattle.hc_scope.specs.Table.{context_in, AnswersNames};
ghost use Rattle.hc_scope.specs.Types.{type_read};

use crate::declared_names::{DeclaredName, name};
use hc_evaluate::type_of;
use hc_scope::{Names, Scope, State, ValueType, all_of};
use hc_tree::{BoxedType, Decl, FrontErr, Ident, Mem, MemoryKind, Sig, Type, Var};
use std::alloc::Global;

/// The names of a declaration, in order.
#[derive(Clone, Copy)]
pub(crate) enum NameList<'t> {
    Vars(&'t [Var]),
    Memories(MemoryKind, &'t [Mem]),
    Signals(&'t [Sig]),
    Channels(&'t [Ident]),
}

/// A declaration: its type is expanded once, and then its names one after another.
#[tactic(auto, unfolding(hc_scope::specs::Declaration::declaration))]
pub(crate) fn declaration<'s, 't>(
    alloc: Global,
    state: &mut State,
    names: &mut Names<'t>,
    around: &'s Scope<'s, 't>,
    calls: u32,
    room: u32,
    d: &'t Decl,
) -> Result<(), FrontErr>
    requires sound { AreSound (kinds_of state.old.objects) }
    ensures answers { AnswersNames names.new.entries around.now calls
        (spec.declaration (nodes room) (context_in names.old.entries around.now calls) d.now state.old) result state.new }
    ensures grows { OnOk result (Grows state.old.objects state.new.objects) }
{
    match d {
        Decl::Vars { of, vars, .. } => {
            let list = NameList::Vars(vars.as_slice());
            typed_names(alloc, state, names, around, calls, room, of, list)
        }
        Decl::Memories {
            kind,
            of,
            memories,
            ..
        } => {
            let list = NameList::Memories(*kind, memories.as_slice());
            typed_names(alloc, state, names, around, calls, room, of, list)
        }
        Decl::Signals { of, signals, .. } => {
            let list = NameList::Signals(signals.as_slice());
            typed_names(alloc, state, names, around, calls, room, unboxed(of), list)
        }
        Decl::Chans {
            of,
            names: channels,
            ..
        } => {
            let list = NameList::Channels(channels.as_slice());
            typed_names(alloc, state, names, around, calls, room, unboxed(of), list)
        }
    }
}

// The type of a signal or channel.
fn unboxed(of: &BoxedType) -> &Type
    ensures { result.now ≡ spec.unboxed of.now }
{
    match of {
        BoxedType::Bare(t) => t,
        BoxedType::InAngles(t) => t,
    }
}

// Names of a type.
fn typed_names<'s, 't>(
    alloc: Global,
    state: &mut State,
    names: &mut Names<'t>,
    around: &'s Scope<'s, 't>,
    calls: u32,
    room: u32,
    of: &'t Type,
    list: NameList<'t>,
) -> Result<(), FrontErr>
    requires sound { AreSound (kinds_of state.old.objects) }
    ensures answers { AnswersNames names.new.entries around.now calls
        (spec.typed_names (nodes room) (context_in names.old.entries around.now calls) of.now (list_read list.entry) state.old) result state.new }
    ensures grows { OnOk result (Grows state.old.objects state.new.objects) }
{
    match type_of(alloc, state, &all_of(names, &*around), calls, room, of) {
        Ok(t) => each_name(alloc, state, names, around, calls, room, t, list),
        Err(e) => Err(e),
    }
}

// Names one after another.
#[tactic(auto, using(hc_scope::proofs::Longer::grows_not, hc_scope::proofs::Longer::grows_on))]
fn each_name<'s, 't>(
    alloc: Global,
    state: &mut State,
    names: &mut Names<'t>,
    around: &'s Scope<'s, 't>,
    calls: u32,
    room: u32,
    t: ValueType,
    mut list: NameList<'t>,
) -> Result<(), FrontErr>
    requires width { IsWidth t.width }
    requires sound { AreSound (kinds_of state.old.objects) }
    ensures answers { AnswersNames names.new.entries around.now calls
        (spec.names (nodes room) (context_in names.old.entries around.now calls) (type_read t) (list_read list.entry) state.old) result state.new }
    ensures grows { OnOk result (Grows state.old.objects state.new.objects) }
{
    while let Some((x, rest)) = list.split_first() {
        match name(alloc, state, names, around, calls, room, t, x) {
            Ok(()) => list = rest,
            Err(e) => return Err(e),
        }
    }
    Ok(())
}

impl<'t> NameList<'t> {
    // The first name, and those behind it.
    fn split_first(self) -> Option<(DeclaredName<'t>, NameList<'t>)>
        ensures { MatchOption result (list_read self.entry ≡ []) (λ found. list_read self.entry ≡ name_read found.0 ∷ list_read found.1) }
    {
        match self {
            NameList::Vars(vars) => match vars {
                [first, rest @ ..] => Some((var_name(first), NameList::Vars(rest))),
                [] => None,
            },
            NameList::Memories(kind, memories) => match memories {
                [first, rest @ ..] => Some((
                    memory_name(kind, first),
                    NameList::Memories(kind, rest),
                )),
                [] => None,
            },
            NameList::Signals(signals) => match signals {
                [first, rest @ ..] => Some((DeclaredName::Signal(first), NameList::Signals(rest))),
                [] => None,
            },
            NameList::Channels(channels) => match channels {
                [first, rest @ ..] => Some((
                    DeclaredName::Channel(first),
                    NameList::Channels(rest),
                )),
                [] => None,
            },
        }
    }
}

// A register or an array.
fn var_name(var: &Var) -> DeclaredName<'_>
    ensures { name_read result ≡ spec.var_name var.now }
{
    match var {
        Var::Register { name, init } => DeclaredName::Register(name, init),
        Var::Array(m) => DeclaredName::Array(m),
    }
}

// A RAM or a ROM.
fn memory_name(kind: MemoryKind, m: &Mem) -> DeclaredName<'_>
    ensures { name_read result ≡ spec.mem_name kind m.now }
{
    match kind {
        MemoryKind::Ram => DeclaredName::Ram(m),
        MemoryKind::Rom => DeclaredName::Rom(m),
    }
}
