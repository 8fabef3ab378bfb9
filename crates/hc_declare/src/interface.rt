ghost use Rattle.std.specs.Prelude.{◌≡◌, true, false, OnOk};
ghost use Rattle.hc_core.specs.Sound.{IsKind, IsWidth, is_port};
ghost use Rattle.hc_core.specs.Typed.{kinds_of};
ghost use Rattle.hc_width.specs.Operand.{operand, IsOperand};
ghost use Rattle.hc_scope.specs.Declaration as spec;
ghost use Rattle.hc_scope.specs.Nodes.{nodes};
ghost use Rattle.hc_scope.specs.Plain.{HasPlainPins, IsPlain, interface_name};
ghost use Rattle.hc_scope.specs.Scope as s;
ghost use Rattle.hc_scope.specs.Sound.{AreSound, GrowsBy};
ghost use Rattle.hc_scope.specs.Table.{context_in, AnswersNames};
ghost use Rattle.hc_scope.specs.Reading.{scope_in};
ghost use Rattle.hc_scope.specs.Types.{type_read};

use hc_core::Kind;
use hc_evaluate::{expression, type_of};
use hc_scope::{
    Declared, Names, Scope, State, ValueType, all_of, declare, fresh, make, pins_of, place_of,
    taken,
};
use hc_tree::{ExprTree, FrontErr, Ident, Interface, NoMemory, Place, Type, With};
use hc_width::Value;
use std::alloc::Global;

/// An input or output. The texts of its pins are to be such as a netlist can hold.
#[tactic(auto, unfolding(hc_scope::specs::Declaration::interface_form))]
pub(crate) fn interface_form<'s, 't>(
    alloc: Global,
    state: &mut State,
    names: &mut Names<'t>,
    around: &'s Scope<'s, 't>,
    calls: u32,
    room: u32,
    i: &'t Interface,
) -> Result<(), FrontErr>
    requires sound { AreSound (kinds_of state.old.objects) }
    requires plain { HasPlainPins i.now }
    ensures answers { AnswersNames names.new.entries around.now calls
        (spec.interface_form (nodes room) (context_in names.old.entries around.now calls) i.now state.old) result state.new }
    ensures grows { OnOk result (GrowsBy (interface_name i.now) state.old.objects state.new.objects) }
{
    match i {
        Interface::BusIn {
            of,
            port,
            name: x,
            with,
            ..
        } => bus_in(alloc, state, names, around, calls, room, of, port, x, with),
        Interface::BusOut {
            name: x,
            of,
            port,
            value,
            with,
            ..
        } => match fresh(alloc, state, names, around, calls, x) {
            Ok(()) => bus_out(
                alloc, state, names, around, calls, room, x, of, port, value, with,
            ),
            Err(e) => Err(e),
        },
    }
}

// An input.
#[tactic(auto, unfolding(hc_scope::specs::Declaration::interface_form))]
fn bus_in<'s, 't>(
    alloc: Global,
    state: &mut State,
    names: &mut Names<'t>,
    around: &'s Scope<'s, 't>,
    calls: u32,
    room: u32,
    of: &'t Type,
    port: &'t Ident,
    x: &'t Ident,
    with: &'t Option<With>,
) -> Result<(), FrontErr>
    requires sound { AreSound (kinds_of state.old.objects) }
    requires plain { IsPlain with.now }
    ensures answers { AnswersNames names.new.entries around.now calls
        (spec.bus_in (nodes room) (context_in names.old.entries around.now calls) of.now port.now x.now with.now state.old) result state.new }
    ensures grows { OnOk result (GrowsBy x.now.name state.old.objects state.new.objects) }
{
    match type_of(alloc, state, &all_of(names, &*around), calls, room, of) {
        Ok(t) => fresh_input(alloc, state, names, around, calls, t, port, x, with),
        Err(e) => Err(e),
    }
}

// An input of this type: S5 where its table has its name already.
fn fresh_input<'s, 't>(
    alloc: Global,
    state: &mut State,
    names: &mut Names<'t>,
    around: &'s Scope<'s, 't>,
    calls: u32,
    t: ValueType,
    port: &'t Ident,
    x: &'t Ident,
    with: &'t Option<With>,
) -> Result<(), FrontErr>
    requires sound { AreSound (kinds_of state.old.objects) }
    requires width { IsWidth t.width }
    requires plain { IsPlain with.now }
    ensures answers { AnswersNames names.new.entries around.now calls
        (spec.fresh_input (context_in names.old.entries around.now calls) (type_read t) port.now x.now with.now state.old) result state.new }
    ensures grows { OnOk result (GrowsBy x.now.name state.old.objects state.new.objects) }
{
    match fresh(alloc, state, names, around, calls, x) {
        Ok(()) => input(alloc, state, names, around, calls, t, port, x, with),
        Err(e) => Err(e),
    }
}

// An input of this type, whose name its table hasn't yet.
#[tactic(auto, unfolding(hc_scope::specs::Declaration::input))]
fn input<'s, 't>(
    alloc: Global,
    state: &mut State,
    names: &mut Names<'t>,
    around: &'s Scope<'s, 't>,
    calls: u32,
    t: ValueType,
    port: &'t Ident,
    x: &'t Ident,
    with: &'t Option<With>,
) -> Result<(), FrontErr>
    requires sound { AreSound (kinds_of state.old.objects) }
    requires new { (outer : s.Scope) → s.is_declared x.now.name (scope_in names.old.entries outer) ≡ false }
    requires width { IsWidth t.width }
    requires plain { IsPlain with.now }
    ensures answers { AnswersNames names.new.entries around.now calls
        (spec.input (context_in names.old.entries around.now calls) (type_read t) port.now x.now with.now state.old) result state.new }
    ensures grows { OnOk result (GrowsBy x.now.name state.old.objects state.new.objects) }
{
    match pins_of(alloc, t.width, with) {
        Ok(pins) => {
            let kind = Kind::Input {
                width: t.width,
                signed: t.signed,
                pins,
            };
            declare_port(alloc, state, names, around, calls, x, port, kind)
        }
        Err(e) => Err(e),
    }
}

// An output, whose name its table hasn't yet.
#[tactic(auto, unfolding(hc_scope::specs::Declaration::bus_out))]
fn bus_out<'s, 't>(
    alloc: Global,
    state: &mut State,
    names: &mut Names<'t>,
    around: &'s Scope<'s, 't>,
    calls: u32,
    room: u32,
    x: &'t Ident,
    of: &'t Type,
    port: &'t Ident,
    value: &'t ExprTree,
    with: &'t Option<With>,
) -> Result<(), FrontErr>
    requires sound { AreSound (kinds_of state.old.objects) }
    requires new { (outer : s.Scope) → s.is_declared x.now.name (scope_in names.old.entries outer) ≡ false }
    requires plain { IsPlain with.now }
    ensures answers { AnswersNames names.new.entries around.now calls
        (spec.bus_out (nodes room) (context_in names.old.entries around.now calls) x.now of.now port.now value.now with.now state.old) result state.new }
    ensures grows { OnOk result (GrowsBy x.now.name state.old.objects state.new.objects) }
{
    match type_of(alloc, state, &all_of(names, &*around), calls, room, of) {
        Ok(t) => match expression(alloc, state, &all_of(names, &*around), calls, room, value) {
            Ok(v) => output(
                alloc,
                state,
                names,
                around,
                calls,
                t,
                x,
                port,
                with,
                place_of(value),
                v,
            ),
            Err(e) => Err(e),
        },
        Err(e) => Err(e),
    }
}

// An output of this type that shows a value.
#[tactic(auto, using(crate::proofs::Written::written_expression), unfolding(hc_scope::specs::Declaration::output))]
fn output<'s, 't>(
    alloc: Global,
    state: &mut State,
    names: &mut Names<'t>,
    around: &'s Scope<'s, 't>,
    calls: u32,
    t: ValueType,
    x: &'t Ident,
    port: &'t Ident,
    with: &'t Option<With>,
    place: Place,
    shown: Value,
) -> Result<(), FrontErr>
    requires sound { AreSound (kinds_of state.old.objects) }
    requires new { (outer : s.Scope) → s.is_declared x.now.name (scope_in names.old.entries outer) ≡ false }
    requires width { IsWidth t.width }
    requires plain { IsPlain with.now }
    requires value { IsOperand (kinds_of state.old.objects) (operand shown) }
    ensures answers { AnswersNames names.new.entries around.now calls
        (spec.output (context_in names.old.entries around.now calls) (type_read t) x.now port.now with.now place (operand shown) state.old) result state.new }
    ensures grows { OnOk result (GrowsBy x.now.name state.old.objects state.new.objects) }
{
    match taken(state, t, place, shown) {
        Ok(value) => match pins_of(alloc, t.width, with) {
            Ok(pins) => {
                let kind = Kind::Output {
                    width: t.width,
                    signed: t.signed,
                    pins,
                    value,
                };
                declare_port(alloc, state, names, around, calls, x, port, kind)
            }
            Err(e) => {
                drop(value);
                Err(e)
            }
        },
        Err(e) => Err(e),
    }
}

// An input or output that keeps its rules is made, and its name is declared, which the table hasn't yet.
#[tactic(auto, using(hc_scope::proofs::Longer::grows_by_port))]
fn declare_port<'s, 't>(
    alloc: Global,
    state: &mut State,
    names: &mut Names<'t>,
    around: &'s Scope<'s, 't>,
    calls: u32,
    x: &'t Ident,
    port: &'t Ident,
    kind: Kind,
) -> Result<(), FrontErr>
    requires new { (outer : s.Scope) → s.is_declared x.now.name (scope_in names.old.entries outer) ≡ false }
    requires sound { AreSound (kinds_of state.old.objects) }
    requires kind { IsKind (kinds_of state.old.objects) kind }
    requires port { is_port kind ≡ true }
    ensures answers { AnswersNames names.new.entries around.now calls
        (spec.port_object (context_in names.old.entries around.now calls) x.now port.now kind state.old) result state.new }
    ensures grows { OnOk result (GrowsBy x.now.name state.old.objects state.new.objects) }
{
    match make(alloc, state, x, kind) {
        Ok(k) => match declare(names, x.name.as_bytes(), Declared::Interface(k, port)) {
            Ok(()) => Ok(()),
            Err(NoMemory) => Err(FrontErr::NoMemory),
        },
        Err(e) => Err(e),
    }
}
