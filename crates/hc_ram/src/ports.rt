ghost use Rattle.std.specs.Prelude.{◌≡◌, ◌<◌, ◌≤◌, ℕ, ◌+◌, ◌^◌, length, All, OnOk, slice_index};
ghost use Rattle.hc_net.specs.Circuit.{IsUndriven, node_at};
ghost use Rattle.hc_net.specs.Frame.{Keeps};
ghost use Rattle.hc_net.specs.Made.{Always};
ghost use Rattle.hc_ram.specs.Enabled.{AreLists};
ghost use Rattle.hc_ram.specs.Ports.{ArePins, DrivesPins, port_gates, with_driven};

use crate::sources::sources;
use hc_net::{Builder, Nets, NoMemory, RamWires};
use std::alloc::Global;

/// Drives the address, the write net and the data of a RAM or ROM: in a clock in which exactly one net of `enables` is 1, they are
/// the index, the write net and, where that is 1, the value of that use; where none is, nothing is written. Index i, net i of
/// `writes` and value i stand for enable i. A use is a read where its net of `writes` is a constant 0.
pub fn port(
    alloc: Global,
    b: &mut Builder,
    ram: &RamWires,
    enables: &Nets,
    indexes: &[Nets],
    writes: &Nets,
    values: &[Nets],
) -> Result<(), NoMemory>
    requires pins { ArePins b.old.nodes ram.now }
    requires enables { All (λ k. k < length b.old.nodes) enables.now }
    requires indexes { AreLists (length b.old.nodes) (length ram.now.addr) indexes.now }
    requires writes { All (λ k. k < length b.old.nodes) writes.now }
    requires values { AreLists (length b.old.nodes) (length ram.now.d) values.now }
    requires index_uses { length indexes.now ≡ length enables.now }
    requires write_uses { length writes.now ≡ length enables.now }
    requires value_uses { length values.now ≡ length enables.now }
    requires room { length b.old.nodes + port_gates b.old.nodes (length ram.now.addr) (length ram.now.d) writes.now < 2 ^ 32 }
    ensures { OnOk result (DrivesPins ram.now enables.now indexes.now writes.now values.now b.old b.new) }
{
    let sources = sources(alloc, b, ram, enables, indexes, writes, values)?;
    let first = ram.we - ram.addr.len() as u32;
    drive_row(b, first, &sources);
    Ok(())
}

/// Drives placeholders in a row from net `first` on, each by the net in its place.
fn drive_row(b: &mut Builder, first: u32, sources: &Nets)
    requires there { first + length sources.now ≤ length b.old.nodes }
    requires few { length b.old.nodes < 2 ^ 32 }
    requires undriven { (i : ℕ) → i < length sources.now → IsUndriven (node_at b.old.nodes (first + i)) }
    requires sources { All (λ k. k < length b.old.nodes) sources.now }
    ensures driven { b.new ≡ with_driven b.old first sources.now }
    ensures kept { Keeps b.old.nodes b.new.nodes }
    ensures value { Always b.new.nodes (λ v. (i : ℕ) → i < length sources.now → v (first + i) ≡ v (slice_index sources.now i)) }
{
    for i in 0..sources.len() {
        b.drive(first + i as u32, sources.as_slice()[i]);
    }
}
