ghost use Rattle.std.specs.Prelude.{◌≡◌, ◌<◌, ◌≤◌, ◌+◌, ◌*◌, ◌^◌, ◌++◌, [], length, map, replicate, IfOk, OnOk, All};
ghost use Rattle.std.specs.List.{range_with_len};
ghost use Rattle.hc_core.specs.Sound.{IsSound, HasLabelBytes, IsKind};
ghost use Rattle.hc_core.specs.Typed.{kinds_of};
ghost use Rattle.hc_core.specs.Weight.{weight_of};
ghost use Rattle.hc_meaning.specs.Value.{bits_of, padded};
ghost use Rattle.hc_rules.specs.Weight.{most_weight};
ghost use Rattle.hc_control.specs.Right.{net_count};
ghost use Rattle.hc_build.specs.Objects.{AddsObject, AddsNodes, CanPlace, Places, output_wire, word_flops, words_flops};

use hc_core::{Core, Kind, Object, PinNames};
use hc_net::{Builder, FlopName, GateKind, Label, Nets, NoMemory, Pins};
use hc_num::Num;
use hc_value::ObjectNets;
use sqlite_items::Items;
use std::alloc::Global;

/// The nodes and ports of all objects of a core, and behind them the constants 0 and 1: the nets of each object.
pub(crate) fn place_objects(
    alloc: Global,
    b: &mut Builder,
    core: &Core,
) -> Result<ObjectNets, NoMemory>
    requires sound { IsSound core.now }
    requires light { weight_of core.now ≤ most_weight }
    requires empty { b.old ≡ record { clock = core.now.clock; ports = []; nodes = [] } }
    ensures { IfOk result (λ at. Places core.now b.new at) }
{
    let mut all = Items::new(alloc);
    let objects = core.objects.as_slice();
    for k in 0..objects.len() {
        let nets = place(alloc, b, k as u32, &objects[k])?;
        match all.push(nets) {
            Ok(()) => {}
            Err(_) => return Err(NoMemory),
        }
    }
    let zero = b.gate(GateKind::Zero, 0, 0)?;
    let one = b.gate(GateKind::One, 0, 0)?;
    Ok(ObjectNets {
        objects: all,
        zero,
        one,
    })
}

/// The nodes of an object, and its port if it is one: the net of each bit.
fn place(alloc: Global, b: &mut Builder, k: u32, object: &Object) -> Result<Nets, NoMemory>
    requires { (kinds : _) × CanPlace kinds object.now b.old }
    ensures { IfOk result (AddsObject k object.now b.old b.new) }
{
    match &object.kind {
        Kind::Reg { width, init, .. } => {
            let mut nets = Nets::new(alloc);
            add_word(b, k, 0, *width, init.bits(), &mut nets)?;
            Ok(nets)
        }
        Kind::Array {
            width,
            length,
            init,
            ..
        } => words(alloc, b, k, *width, *length, init.as_slice()),
        Kind::Input { width, pins, .. } => {
            let name = Label::new(alloc, object.name.as_bytes())?;
            b.input(&name, *width, &labels(alloc, pins)?)
        }
        Kind::Output { width, pins, .. } => {
            let name = Label::new(alloc, object.name.as_bytes())?;
            let nets = wires(alloc, b, *width)?;
            b.output(&name, &labels(alloc, pins)?, &nets)?;
            Ok(nets)
        }
        Kind::Ram { .. } => Ok(Nets::new(alloc)),
        Kind::Rom { .. } => Ok(Nets::new(alloc)),
        Kind::Signal { .. } => Ok(Nets::new(alloc)),
        Kind::Chan { .. } => Ok(Nets::new(alloc)),
    }
}

/// Adds flip-flops for `width` bits of object `k`, the first of which is bit `from` of the object, and their nets behind
/// those of a list. They start with these bits and aren't fed yet.
fn add_word(
    b: &mut Builder,
    k: u32,
    from: u32,
    width: u32,
    bits: u128,
    nets: &mut Nets,
) -> Result<(), NoMemory>
    requires width { width ≤ 128 }
    requires bit { from + width < 2 ^ 32 }
    requires room { length b.old.nodes + width < 2 ^ 32 }
    ensures { OnOk result (AddsNodes (word_flops k from width bits) nets.old b.old b.new nets.new) }
{
    for i in 0..width {
        let name = FlopName::Bit {
            object: k,
            bit: from + i,
        };
        let net = b.flop(name, (bits >> i) % 2 == 1)?;
        nets.push(net)?;
    }
    Ok(())
}

/// The flip-flops of an array of `count` elements, of which the first start with these numbers and the others with 0: the
/// net of each bit.
fn words(
    alloc: Global,
    b: &mut Builder,
    k: u32,
    width: u32,
    count: u32,
    init: &[Num],
) -> Result<Nets, NoMemory>
    requires width { width ≤ 128 }
    requires bits { count * width < 2 ^ 32 }
    requires room { length b.old.nodes + count * width < 2 ^ 32 }
    ensures { IfOk result (AddsNodes (words_flops k 0 width (padded count (bits_of init.now))) [] b.old b.new) }
{
    let mut nets = Nets::new(alloc);
    for e in 0..count {
        let bits = match init.get(e as usize) {
            Some(n) => n.bits(),
            None => 0,
        };
        add_word(b, k, e * width, width, bits, &mut nets)?;
    }
    Ok(nets)
}

/// The pins of a port.
fn labels(alloc: Global, pins: &PinNames) -> Result<Pins, NoMemory>
    requires { All HasLabelBytes pins.now }
    ensures { IfOk result (λ labels. labels ≡ pins.now) }
{
    let mut labels = Pins::new(alloc);
    for pin in pins.as_slice() {
        labels.push(Label::new(alloc, pin.as_bytes())?)?;
    }
    Ok(labels)
}

/// Placeholders for the bits of an output. Nothing reads them, so they have the highest rank and may read every other placeholder.
fn wires(alloc: Global, b: &mut Builder, width: u32) -> Result<Nets, NoMemory>
    requires room { length b.old.nodes + width < 2 ^ 32 }
    ensures { IfOk result (AddsNodes (replicate width output_wire) [] b.old b.new) }
{
    let mut nets = Nets::new(alloc);
    for i in 0..width {
        nets.push(b.wire(u32::MAX)?)?;
    }
    Ok(nets)
}
