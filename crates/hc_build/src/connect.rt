ghost use Rattle.std.specs.Prelude.{◌≡◌, ◌<◌, ℕ, length, slice_index};
ghost use Rattle.hc_core.specs.Typed.{kinds_of};
ghost use Rattle.hc_net.specs.Circuit.{IsUnfed, IsUndriven, node_at};
ghost use Rattle.hc_build.specs.Sources.{CanConnect, CanRead, Connects, ReadsFirst, is_placeholder};

use hc_core::{Core, Kind};
use hc_net::{Builder, Nets};
use hc_value::{NetLists, ObjectNets};

/// Lets each net of an object read the net in the same place of its source: flip-flops are fed, and placeholders of outputs
/// driven.
pub(crate) fn connect(b: &mut Builder, core: &Core, at: &ObjectNets, sources: &NetLists)
    requires { CanConnect (kinds_of core.now.objects) at.now sources.now b.old }
    ensures { Connects (kinds_of core.now.objects) at.now sources.now b.old b.new }
{
    let objects = core.objects.as_slice();
    for k in 0..objects.len() {
        let nets = &at.objects.as_slice()[k];
        let source = &sources.as_slice()[k];
        if is_output(&objects[k].kind) {
            drive_all(b, nets, source);
        } else {
            feed_all(b, nets, source);
        }
    }
}

/// Whether an object is an output.
fn is_output(kind: &Kind) -> bool
    ensures { result ≡ is_placeholder kind.now }
{
    match kind {
        Kind::Output { .. } => true,
        Kind::Reg { .. } => false,
        Kind::Array { .. } => false,
        Kind::Ram { .. } => false,
        Kind::Rom { .. } => false,
        Kind::Signal { .. } => false,
        Kind::Chan { .. } => false,
        Kind::Input { .. } => false,
    }
}

/// Feeds the flip-flops of a list, each with the net in the same place of another.
fn feed_all(b: &mut Builder, nets: &Nets, from: &Nets)
    requires can { CanRead nets.now from.now b.old }
    requires unfed { (i : ℕ) → i < length from.now → IsUnfed (node_at b.old.nodes (slice_index nets.now i)) }
    ensures { ReadsFirst (length from.now) nets.now from.now b.old b.new }
{
    for i in 0..from.len() {
        b.feed(nets.as_slice()[i], from.as_slice()[i]);
    }
}

/// Drives the placeholders of a list, each by the net in the same place of another.
fn drive_all(b: &mut Builder, nets: &Nets, from: &Nets)
    requires can { CanRead nets.now from.now b.old }
    requires undriven { (i : ℕ) → i < length from.now → IsUndriven (node_at b.old.nodes (slice_index nets.now i)) }
    ensures { ReadsFirst (length from.now) nets.now from.now b.old b.new }
{
    for i in 0..from.len() {
        b.drive(nets.as_slice()[i], from.as_slice()[i]);
    }
}
