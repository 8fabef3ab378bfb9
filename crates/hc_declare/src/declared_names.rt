ghost use Rattle.std.specs.Prelude.{◌≡◌, false, OnOk};
ghost use Rattle.hc_core.specs.Sound.{IsWidth};
ghost use Rattle.hc_core.specs.Typed.{kinds_of};
ghost use Rattle.hc_scope.specs.Declaration as spec;
ghost use Rattle.hc_declare.specs.NamesRead.{name_read};
ghost use Rattle.hc_scope.specs.Nodes.{nodes};
ghost use Rattle.hc_scope.specs.Parts as p;
ghost use Rattle.hc_scope.specs.Scope as s;
ghost use Rattle.hc_scope.specs.Sound.{AreSound, Grows};
ghost use Rattle.hc_scope.specs.Table.{context_in, AnswersNames};
ghost use Rattle.hc_scope.specs.Reading.{scope_in};
ghost use Rattle.hc_scope.specs.Types.{type_read};

use hc_core::Kind;
use hc_evaluate::{elements, initial_or_zero, words};
use hc_scope::{
    Names, Scope, State, ValueType, all_of, broken, declare_array, declare_object, fresh, visit,
};
use hc_tree::{ExprTree, FrontErr, Ident, Mem, Rule, Sig};
use std::alloc::Global;

/// A name of a declaration, with what is written of its object.
#[derive(Clone, Copy)]
pub(crate) enum DeclaredName<'t> {
    Register(&'t Ident, &'t Option<ExprTree>),
    Array(&'t Mem),
    Ram(&'t Mem),
    Rom(&'t Mem),
    Signal(&'t Sig),
    Channel(&'t Ident),
}

// A register, which starts with its constant or 0.
#[tactic(auto, unfolding(hc_scope::specs::Declaration::object_form))]
fn register<'s, 't>(
    alloc: Global,
    state: &mut State,
    names: &mut Names<'t>,
    around: &'s Scope<'s, 't>,
    calls: u32,
    room: u32,
    t: ValueType,
    x: &'t Ident,
    init: &'t Option<ExprTree>,
) -> Result<(), FrontErr>
    requires new { (outer : s.Scope) → s.is_declared x.now.name (scope_in names.old.entries outer) ≡ false }
    requires width { IsWidth t.width }
    requires sound { AreSound (kinds_of state.old.objects) }
    ensures answers { AnswersNames names.new.entries around.now calls
        (spec.object_form (nodes room) (context_in names.old.entries around.now calls) x.now (type_read t) (p.a_register x.now init.now) state.old) result state.new }
    ensures grows { OnOk result (Grows state.old.objects state.new.objects) }
{
    match initial_or_zero(alloc, state, &all_of(names, around), calls, room, t, init) {
        Ok(init) => {
            let kind = Kind::Reg {
                width: t.width,
                signed: t.signed,
                init,
            };
            declare_object(alloc, state, names, x, kind)
        }
        Err(e) => Err(e),
    }
}

// A signal, with its default or 0.
#[tactic(auto, unfolding(hc_scope::specs::Declaration::object_form))]
fn signal<'s, 't>(
    alloc: Global,
    state: &mut State,
    names: &mut Names<'t>,
    around: &'s Scope<'s, 't>,
    calls: u32,
    room: u32,
    t: ValueType,
    g: &'t Sig,
) -> Result<(), FrontErr>
    requires new { (outer : s.Scope) → s.is_declared g.now.name.name (scope_in names.old.entries outer) ≡ false }
    requires width { IsWidth t.width }
    requires sound { AreSound (kinds_of state.old.objects) }
    ensures answers { AnswersNames names.new.entries around.now calls
        (spec.object_form (nodes room) (context_in names.old.entries around.now calls) g.now.name (type_read t) (p.a_signal g.now) state.old) result state.new }
    ensures grows { OnOk result (Grows state.old.objects state.new.objects) }
{
    match initial_or_zero(
        alloc,
        state,
        &all_of(names, around),
        calls,
        room,
        t,
        &g.unset,
    ) {
        Ok(unset) => {
            let kind = Kind::Signal {
                width: t.width,
                signed: t.signed,
                unset,
            };
            declare_object(alloc, state, names, &g.name, kind)
        }
        Err(e) => Err(e),
    }
}

// An array, with the first values of its elements: L9 where it has more than 4,096.
#[tactic(auto, unfolding(hc_scope::specs::Declaration::object_form))]
fn array<'s, 't>(
    alloc: Global,
    state: &mut State,
    names: &mut Names<'t>,
    around: &'s Scope<'s, 't>,
    calls: u32,
    room: u32,
    t: ValueType,
    m: &'t Mem,
) -> Result<(), FrontErr>
    requires new { (outer : s.Scope) → s.is_declared m.now.name.name (scope_in names.old.entries outer) ≡ false }
    requires width { IsWidth t.width }
    requires sound { AreSound (kinds_of state.old.objects) }
    ensures answers { AnswersNames names.new.entries around.now calls
        (spec.object_form (nodes room) (context_in names.old.entries around.now calls) m.now.name (type_read t) (p.an_array m.now) state.old) result state.new }
    ensures grows { OnOk result (Grows state.old.objects state.new.objects) }
{
    match elements(alloc, state, &all_of(names, around), calls, room, t, m) {
        Ok(all) => declare_array(alloc, state, names, &m.name, t, all),
        Err(e) => Err(e),
    }
}

// A RAM, with the first values of its words.
#[tactic(auto, unfolding(hc_scope::specs::Declaration::object_form))]
fn ram<'s, 't>(
    alloc: Global,
    state: &mut State,
    names: &mut Names<'t>,
    around: &'s Scope<'s, 't>,
    calls: u32,
    room: u32,
    t: ValueType,
    m: &'t Mem,
) -> Result<(), FrontErr>
    requires new { (outer : s.Scope) → s.is_declared m.now.name.name (scope_in names.old.entries outer) ≡ false }
    requires width { IsWidth t.width }
    requires sound { AreSound (kinds_of state.old.objects) }
    ensures answers { AnswersNames names.new.entries around.now calls
        (spec.object_form (nodes room) (context_in names.old.entries around.now calls) m.now.name (type_read t) (p.a_ram m.now) state.old) result state.new }
    ensures grows { OnOk result (Grows state.old.objects state.new.objects) }
{
    match words(alloc, state, &all_of(names, around), calls, room, t, m) {
        Ok(all) => {
            let kind = Kind::Ram {
                width: t.width,
                signed: t.signed,
                length: all.count as u32,
                init: all.values,
            };
            declare_object(alloc, state, names, &m.name, kind)
        }
        Err(e) => Err(e),
    }
}

// A ROM, with the first values of its words.
#[tactic(auto, unfolding(hc_scope::specs::Declaration::object_form))]
fn rom<'s, 't>(
    alloc: Global,
    state: &mut State,
    names: &mut Names<'t>,
    around: &'s Scope<'s, 't>,
    calls: u32,
    room: u32,
    t: ValueType,
    m: &'t Mem,
) -> Result<(), FrontErr>
    requires new { (outer : s.Scope) → s.is_declared m.now.name.name (scope_in names.old.entries outer) ≡ false }
    requires width { IsWidth t.width }
    requires sound { AreSound (kinds_of state.old.objects) }
    ensures answers { AnswersNames names.new.entries around.now calls
        (spec.object_form (nodes room) (context_in names.old.entries around.now calls) m.now.name (type_read t) (p.a_rom m.now) state.old) result state.new }
    ensures grows { OnOk result (Grows state.old.objects state.new.objects) }
{
    match words(alloc, state, &all_of(names, around), calls, room, t, m) {
        Ok(all) => {
            let kind = Kind::Rom {
                width: t.width,
                signed: t.signed,
                length: all.count as u32,
                init: all.values,
            };
            declare_object(alloc, state, names, &m.name, kind)
        }
        Err(e) => Err(e),
    }
}

// A channel, which has no places yet.
#[tactic(auto, unfolding(hc_scope::specs::Declaration::object_form))]
fn channel<'s, 't>(
    alloc: Global,
    state: &mut State,
    names: &mut Names<'t>,
    around: &'s Scope<'s, 't>,
    calls: u32,
    room: u32,
    t: ValueType,
    x: &'t Ident,
) -> Result<(), FrontErr>
    requires new { (outer : s.Scope) → s.is_declared x.now.name (scope_in names.old.entries outer) ≡ false }
    requires width { IsWidth t.width }
    requires sound { AreSound (kinds_of state.old.objects) }
    ensures answers { AnswersNames names.new.entries around.now calls
        (spec.object_form (nodes room) (context_in names.old.entries around.now calls) x.now (type_read t) (p.a_channel x.now) state.old) result state.new }
    ensures grows { OnOk result (Grows state.old.objects state.new.objects) }
{
    let kind = Kind::Chan {
        width: t.width,
        signed: t.signed,
        queue: 0,
    };
    declare_object(alloc, state, names, x, kind)
}

impl<'t> DeclaredName<'t> {
    /// The name itself.
    fn ident(&self) -> &'t Ident
        ensures { result.now ≡ p.ident_of (name_read self.now) }
    {
        match *self {
            DeclaredName::Register(x, _) => x,
            DeclaredName::Array(m) => &m.name,
            DeclaredName::Ram(m) => &m.name,
            DeclaredName::Rom(m) => &m.name,
            DeclaredName::Signal(g) => &g.name,
            DeclaredName::Channel(x) => x,
        }
    }
}

// What a name declares that its table hasn't yet.
fn object_form<'s, 't>(
    alloc: Global,
    state: &mut State,
    names: &mut Names<'t>,
    around: &'s Scope<'s, 't>,
    calls: u32,
    room: u32,
    t: ValueType,
    x: DeclaredName<'t>,
) -> Result<(), FrontErr>
    requires new { (outer : s.Scope) → s.is_declared (p.ident_of (name_read x)).name (scope_in names.old.entries outer) ≡ false }
    requires width { IsWidth t.width }
    requires sound { AreSound (kinds_of state.old.objects) }
    ensures answers { AnswersNames names.new.entries around.now calls
        (spec.object_form (nodes room) (context_in names.old.entries around.now calls) (p.ident_of (name_read x.entry)) (type_read t) (name_read x.entry) state.old) result state.new }
    ensures grows { OnOk result (Grows state.old.objects state.new.objects) }
{
    match x {
        DeclaredName::Register(x, init) => register(
            alloc, state, names, around, calls, room, t, x, init,
        ),
        DeclaredName::Array(m) => array(alloc, state, names, around, calls, room, t, m),
        DeclaredName::Ram(m) => ram(alloc, state, names, around, calls, room, t, m),
        DeclaredName::Rom(m) => rom(alloc, state, names, around, calls, room, t, m),
        DeclaredName::Signal(g) => signal(alloc, state, names, around, calls, room, t, g),
        DeclaredName::Channel(x) => channel(alloc, state, names, around, calls, room, t, x),
    }
}

// A declared name: S5 where its table has it already.
#[tactic(auto, unfolding(hc_scope::specs::Declaration::name_form))]
fn name_form<'s, 't>(
    alloc: Global,
    state: &mut State,
    names: &mut Names<'t>,
    around: &'s Scope<'s, 't>,
    calls: u32,
    room: u32,
    t: ValueType,
    x: DeclaredName<'t>,
) -> Result<(), FrontErr>
    requires width { IsWidth t.width }
    requires sound { AreSound (kinds_of state.old.objects) }
    ensures answers { AnswersNames names.new.entries around.now calls
        (spec.name_form (nodes room) (context_in names.old.entries around.now calls) (p.ident_of (name_read x.entry)) (type_read t) (name_read x.entry) state.old) result state.new }
    ensures grows { OnOk result (Grows state.old.objects state.new.objects) }
{
    match fresh(alloc, state, names, around, calls, x.ident()) {
        Ok(()) => object_form(alloc, state, names, around, calls, room, t, x),
        Err(e) => Err(e),
    }
}

/// A declared name around which `room` more nodes may be open: it is a node, which is visited first.
#[tactic(auto, using(crate::proofs::NameNodes::deepest_name, crate::proofs::NameNodes::inner_name))]
pub(crate) fn name<'s, 't>(
    alloc: Global,
    state: &mut State,
    names: &mut Names<'t>,
    around: &'s Scope<'s, 't>,
    calls: u32,
    room: u32,
    t: ValueType,
    x: DeclaredName<'t>,
) -> Result<(), FrontErr>
    requires width { IsWidth t.width }
    requires sound { AreSound (kinds_of state.old.objects) }
    ensures answers { AnswersNames names.new.entries around.now calls
        ((nodes room).name (context_in names.old.entries around.now calls) (type_read t) (name_read x.entry) state.old) result state.new }
    ensures grows { OnOk result (Grows state.old.objects state.new.objects) }
{
    match visit(state, false, calls, x.ident().place) {
        Ok(()) => {
            if room == 0 {
                Err(broken(Rule::L6, x.ident().place))
            } else {
                name_form(alloc, state, names, around, calls, room - 1, t, x)
            }
        }
        Err(e) => Err(e),
    }
}
