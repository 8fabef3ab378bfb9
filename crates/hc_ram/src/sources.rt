ghost use Rattle.std.specs.Prelude.{◌≡◌, ◌<◌, ◌≤◌, ◌+◌, ◌*◌, ◌^◌, [], ◌++◌, length, map, false, All, IfOk};
ghost use Rattle.std.specs.List.{range_with_len};
ghost use Rattle.hc_net.specs.Made.{Makes};
ghost use Rattle.hc_ram.specs.Enabled.{AreLists, all_nets, any_enabled};
ghost use Rattle.hc_ram.specs.Ports.{port_gates};
ghost use Rattle.hc_ram.specs.Sources.{MakesSources};

use crate::append::append;
use crate::enabled::any_enabled;
use crate::writers::{Writers, find_writers};
use hc_net::{Builder, GateKind, Nets, NoMemory, RamWires};
use std::alloc::Global;

/// What drives the pins of a RAM, in the order address, write net, data: some use has its enable and its bit. Uses that never
/// write count for the address alone.
pub(crate) fn sources(
    alloc: Global,
    b: &mut Builder,
    ram: &RamWires,
    enables: &Nets,
    indexes: &[Nets],
    writes: &Nets,
    values: &[Nets],
) -> Result<Nets, NoMemory>
    requires enables { All (λ k. k < length b.old.nodes) enables.now }
    requires indexes { AreLists (length b.old.nodes) (length ram.now.addr) indexes.now }
    requires writes { All (λ k. k < length b.old.nodes) writes.now }
    requires values { AreLists (length b.old.nodes) (length ram.now.d) values.now }
    requires index_uses { length indexes.now ≡ length enables.now }
    requires write_uses { length writes.now ≡ length enables.now }
    requires value_uses { length values.now ≡ length enables.now }
    requires few { length ram.now.addr + length ram.now.d < 2 ^ 32 }
    requires room { length b.old.nodes + port_gates b.old.nodes (length ram.now.addr) (length ram.now.d) writes.now < 2 ^ 32 }
    ensures { IfOk result (MakesSources ram.now enables.now indexes.now writes.now values.now b.old b.new) }
{
    if enables.is_empty() {
        return zeros(alloc, b, ram.addr.len() + 1 + ram.d.len());
    }
    let writers = find_writers(alloc, b, enables, writes, values)?;
    let mut sources = any_enabled(alloc, b, ram.addr.len(), enables, indexes)?;
    let word = written(alloc, b, ram.d.len() + 1, &writers)?;
    append(&mut sources, &word)?;
    Ok(sources)
}

/// What drives the write net and the data, `width` nets together.
fn written(
    alloc: Global,
    b: &mut Builder,
    width: usize,
    writers: &Writers,
) -> Result<Nets, NoMemory>
    requires enables { All (λ k. k < length b.old.nodes) writers.now.enables }
    requires words { AreLists (length b.old.nodes) width writers.now.words.items }
    requires uses { length writers.now.words.items ≡ length writers.now.enables }
    requires room { length b.old.nodes + (1 + width * (2 * length writers.now.enables)) < 2 ^ 32 }
    ensures width { IfOk result (λ z. length z ≡ width) }
    ensures circuit { IfOk result (λ z. Makes (1 + width * (2 * length writers.now.enables)) (writers.now.enables ++ all_nets writers.now.words.items) b.old b.new z
        (λ v. map v z ≡ map (any_enabled v writers.now.enables writers.now.words.items) (range_with_len 0 width))) }
{
    if writers.enables.is_empty() {
        return zeros(alloc, b, width);
    }
    any_enabled(alloc, b, width, &writers.enables, writers.words.as_slice())
}

/// `count` nets that are 0, all of one gate.
fn zeros(alloc: Global, b: &mut Builder, count: usize) -> Result<Nets, NoMemory>
    requires room { length b.old.nodes + 1 < 2 ^ 32 }
    ensures width { IfOk result (λ z. length z ≡ count) }
    ensures circuit { IfOk result (λ z. Makes 1 [] b.old b.new z (λ v. All (λ k. v k ≡ false) z)) }
{
    let zero = b.gate(GateKind::Zero, 0, 0)?;
    let mut nets = Nets::new(alloc);
    for i in 0..count {
        nets.push(zero)?;
    }
    Ok(nets)
}
