ghost use Rattle.std.specs.Prelude.{◌≡◌, ◌<◌, ◌+◌, ◌^◌, length, true, Some, slice_get, IfOk};
ghost use Rattle.std.specs.List.{sum_by};
ghost use Rattle.hc_core.specs.Typed.{kinds_of};
ghost use Rattle.hc_core.specs.Weigh.{AreSound};
ghost use Rattle.hc_control.specs.Uses.{AreThere};
ghost use Rattle.hc_control.specs.Right.{HasPlaces};
ghost use Rattle.hc_build.specs.Built.{is_built_kind};
ghost use Rattle.hc_build.specs.Uses.{HasUses, all_next_gates, next_gates};
ghost use Rattle.hc_build.specs.Sources.{MakesSource, MakesSources, AreBuiltOutputs, output_gates};

use hc_control::ObjectUses;
use hc_core::{Core, Kind};
use hc_net::{Builder, Nets, NoMemory};
use hc_store::{hold, hold_array};
use hc_value::{NetLists, ObjectNets, value};
use sqlite_items::Items;
use std::alloc::Global;

/// What the nets of each object read: the next bits of a register or an array, and the number of an output's expression.
pub(crate) fn sources(
    alloc: Global,
    b: &mut Builder,
    core: &Core,
    at: &ObjectNets,
    uses: &[ObjectUses],
) -> Result<NetLists, NoMemory>
    requires sound { AreSound (kinds_of core.now.objects) }
    requires places { HasPlaces (kinds_of core.now.objects) b.old.nodes at.now }
    requires uses { HasUses (kinds_of core.now.objects) b.old.nodes uses.now }
    requires built { AreBuiltOutputs (kinds_of core.now.objects) }
    requires room { length b.old.nodes + (all_next_gates b.old.nodes (kinds_of core.now.objects) uses.now + sum_by (output_gates (kinds_of core.now.objects)) (kinds_of core.now.objects)) < 2 ^ 32 }
    ensures { IfOk result (MakesSources (kinds_of core.now.objects) at.now uses.now b.old b.new) }
{
    let mut all = Items::new(alloc);
    let objects = core.objects.as_slice();
    for k in 0..objects.len() {
        let nets = source(alloc, b, core, at, &objects[k].kind, k, &uses[k])?;
        match all.push(nets) {
            Ok(()) => {}
            Err(_) => return Err(NoMemory),
        }
    }
    Ok(all)
}

/// What the nets of an object of a kind read.
fn source(
    alloc: Global,
    b: &mut Builder,
    core: &Core,
    at: &ObjectNets,
    kind: &Kind,
    k: usize,
    u: &ObjectUses,
) -> Result<Nets, NoMemory>
    requires sound { AreSound (kinds_of core.now.objects) }
    requires places { HasPlaces (kinds_of core.now.objects) b.old.nodes at.now }
    requires kind { slice_get (kinds_of core.now.objects) k ≡ Some kind.now }
    requires uses { AreThere kind.now b.old.nodes u.now }
    requires built { is_built_kind kind.now ≡ true }
    requires room { length b.old.nodes + (next_gates b.old.nodes kind.now u.now + output_gates (kinds_of core.now.objects) kind.now) < 2 ^ 32 }
    ensures { IfOk result (MakesSource (kinds_of core.now.objects) at.now k u.now kind.now b.old b.new) }
{
    let nets = &at.objects.as_slice()[k];
    match kind {
        Kind::Reg { .. } => hold(alloc, b, nets, &u.enables, u.values.as_slice()),
        Kind::Array { width, .. } => hold_array(
            alloc,
            b,
            nets,
            *width,
            &u.enables,
            u.indexes.as_slice(),
            u.values.as_slice(),
        ),
        Kind::Output { value: e, .. } => value(alloc, b, core, at, e),
        Kind::Ram { .. } => Ok(Nets::new(alloc)),
        Kind::Rom { .. } => Ok(Nets::new(alloc)),
        Kind::Signal { .. } => Ok(Nets::new(alloc)),
        Kind::Chan { .. } => Ok(Nets::new(alloc)),
        Kind::Input { .. } => Ok(Nets::new(alloc)),
    }
}
