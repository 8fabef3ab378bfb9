ghost use Rattle.std.specs.Prelude.{◌≡◌, ◌<◌, ◌+◌, ◌^◌, length, map, replicate, All, IfOk, OnOk};
ghost use Rattle.std.specs.List.{sum_by};
ghost use Rattle.hc_core.specs.Read.{expression, target};
ghost use Rattle.hc_core.specs.Typed.{kinds_of};
ghost use Rattle.hc_core.specs.Weigh.{AreSound};
ghost use Rattle.hc_meaning.specs.Residual.{Assign};
ghost use Rattle.hc_control.specs.Listing.{IsAction, action_of};
ghost use Rattle.hc_control.specs.Right.{HasPlaces};
ghost use Rattle.hc_control.specs.Uses.{IsBuiltAction, MakesUses, AddsUse, AddsUses, MakesIndex, object_of, index_weight, action_gates, no_use};

use hc_core::{Core, Expr, Stmt, Target};
use hc_net::{Builder, Nets, NoMemory};
use hc_value::{NetLists, ObjectNets, value};
use sqlite_items::Items;
use std::alloc::Global;

/// What is written to an object: the nets of each write, write by write in text order.
#[derive(Debug, Drop)]
pub struct ObjectUses {
    /// The net that is 1 in a clock in which the write's action is taken.
    pub enables: Nets,
    /// The nets of the write's index, lowest bit first; none for a register.
    pub indexes: NetLists,
    /// For each use of a RAM or ROM, reads with writes, the net that is 1 where it writes. It is empty as long as no RAM is
    /// built.
    pub writes: Nets,
    /// The nets of the value that is written, lowest bit first.
    pub values: NetLists,
}

/// The uses of the objects of a core, by their numbers.
pub type Uses = Vec<ObjectUses>;

/// The uses of each object by actions. Of action i, `starts` has the net that is 1 in a clock in which it is taken.
pub(crate) fn uses(
    alloc: Global,
    b: &mut Builder,
    core: &Core,
    at: &ObjectNets,
    starts: &Nets,
    actions: &[&Stmt],
) -> Result<Uses, NoMemory>
    requires sound { AreSound (kinds_of core.now.objects) }
    requires places { HasPlaces (kinds_of core.now.objects) b.old.nodes at.now }
    requires starts { All (λ k. k < length b.old.nodes) starts.now }
    requires count { length starts.now ≡ length actions.now }
    requires actions { All IsAction (map (λ s. s.now) actions.now) }
    requires built { All (IsBuiltAction (kinds_of core.now.objects)) (map (λ s. action_of s.now) actions.now) }
    requires room { length b.old.nodes + sum_by (action_gates (kinds_of core.now.objects)) (map (λ s. action_of s.now) actions.now) < 2 ^ 32 }
    ensures { IfOk result (λ uses. MakesUses (kinds_of core.now.objects) at.now starts.now (map (λ s. action_of s.now) actions.now) b.old b.new uses.items) }
{
    let mut uses = no_uses(alloc, core.objects.len())?;
    for i in 0..actions.len() {
        let start = starts.as_slice()[i];
        add_action(alloc, b, core, at, start, actions[i], &mut uses)?;
    }
    Ok(uses)
}

/// No uses of each object.
fn no_uses(alloc: Global, count: usize) -> Result<Uses, NoMemory>
    ensures { IfOk result (λ uses. uses.items ≡ replicate count no_use) }
{
    let mut uses = Vec::new(alloc);
    for k in 0..count {
        let none = ObjectUses {
            enables: Nets::new(alloc),
            indexes: Items::new(alloc),
            writes: Nets::new(alloc),
            values: Items::new(alloc),
        };
        match uses.push(none) {
            Ok(()) => {}
            Err(_) => return Err(NoMemory),
        }
    }
    Ok(uses)
}

/// Adds what an action writes to the uses of its object.
fn add_action(
    alloc: Global,
    b: &mut Builder,
    core: &Core,
    at: &ObjectNets,
    start: u32,
    action: &Stmt,
    uses: &mut Uses,
) -> Result<(), NoMemory>
    requires sound { AreSound (kinds_of core.now.objects) }
    requires places { HasPlaces (kinds_of core.now.objects) b.old.nodes at.now }
    requires action { IsAction action.now }
    requires built { IsBuiltAction (kinds_of core.now.objects) (action_of action.now) }
    requires count { length uses.old.items ≡ length (kinds_of core.now.objects) }
    requires room { length b.old.nodes + action_gates (kinds_of core.now.objects) (action_of action.now) < 2 ^ 32 }
    ensures { OnOk result (AddsUses (kinds_of core.now.objects) at.now start (action_of action.now) b.old b.new uses.old.items uses.new.items) }
{
    match action {
        Stmt::Assign {
            target,
            value: e,
            ..
        } => add_write(alloc, b, core, at, start, target, e, uses),
        Stmt::Delay { .. } => Ok(()),
        Stmt::Skip => unreachable!(),
        Stmt::Send { .. } => unreachable!(),
        Stmt::Recv { .. } => unreachable!(),
        Stmt::Prialt { .. } => unreachable!(),
        Stmt::Seq { .. } => unreachable!(),
        Stmt::Par { .. } => unreachable!(),
        Stmt::If { .. } => unreachable!(),
        Stmt::While { .. } => unreachable!(),
        Stmt::DoWhile { .. } => unreachable!(),
        Stmt::Switch { .. } => unreachable!(),
    }
}

/// Adds a write to the uses of its object.
fn add_write(
    alloc: Global,
    b: &mut Builder,
    core: &Core,
    at: &ObjectNets,
    start: u32,
    to: &Target,
    e: &Expr,
    uses: &mut Uses,
) -> Result<(), NoMemory>
    requires sound { AreSound (kinds_of core.now.objects) }
    requires places { HasPlaces (kinds_of core.now.objects) b.old.nodes at.now }
    requires built { IsBuiltAction (kinds_of core.now.objects) (Assign (target to.now) (expression e.now)) }
    requires count { length uses.old.items ≡ length (kinds_of core.now.objects) }
    requires room { length b.old.nodes + action_gates (kinds_of core.now.objects) (Assign (target to.now) (expression e.now)) < 2 ^ 32 }
    ensures { OnOk result (AddsUse (kinds_of core.now.objects) at.now start (target to.now) (expression e.now) b.old b.new uses.old.items uses.new.items) }
{
    let index = index_nets(alloc, b, core, at, to)?;
    let nets = value(alloc, b, core, at, e)?;
    let u = &mut uses[object(to) as usize];
    u.enables.push(start)?;
    match u.indexes.push(index) {
        Ok(()) => {}
        Err(_) => return Err(NoMemory),
    }
    match u.values.push(nets) {
        Ok(()) => Ok(()),
        Err(_) => Err(NoMemory),
    }
}

/// The object that a target writes.
#[tactic(auto, using(hc_core::proofs::Read::reading))]
fn object(to: &Target) -> u32
    ensures { result ≡ object_of (target to.now) }
{
    match to {
        Target::Reg(k) => *k,
        Target::Element(k, _) => *k,
        Target::Word(k, _) => *k,
        Target::Signal(k) => *k,
    }
}

/// The nets of a target's index; a register has none.
fn index_nets(
    alloc: Global,
    b: &mut Builder,
    core: &Core,
    at: &ObjectNets,
    to: &Target,
) -> Result<Nets, NoMemory>
    requires sound { AreSound (kinds_of core.now.objects) }
    requires places { HasPlaces (kinds_of core.now.objects) b.old.nodes at.now }
    requires built { (e : _) × IsBuiltAction (kinds_of core.now.objects) (Assign (target to.now) e) }
    requires room { length b.old.nodes + index_weight (kinds_of core.now.objects) (target to.now) < 2 ^ 32 }
    ensures { IfOk result (MakesIndex (kinds_of core.now.objects) at.now (target to.now) b.old b.new) }
{
    match to {
        Target::Reg(_) => Ok(Nets::new(alloc)),
        Target::Element(_, i) => value(alloc, b, core, at, i),
        Target::Word(_, _) => unreachable!(),
        Target::Signal(_) => unreachable!(),
    }
}
