//! A netlist as EDIF 2 0 0 text.

ghost use Rattle.std.specs.Prelude.{◌≡◌, ◌<◌, ◌^◌, ◌++◌, true, false, OnOk, OnErr, IfErr, IsErrOf};
ghost use Rattle.std.specs.List.{flat_map};
ghost use Rattle.hc_net.specs.Run.{cell_base};
ghost use Rattle.hc_net.specs.Valid.{IsValid};
ghost use Rattle.hc_outside.specs.Count.{HasRisen};
ghost use Rattle.hc_outside.specs.Sink.{Wrote, WroteFront};
ghost use Rattle.hc_run.specs.Edif.{each_from, numbered_net, readers, drivers, edif};
ghost use Rattle.hc_run.specs.Pins.{library_text, interface_text, instances_text, nets_text};
ghost use Rattle.hc_run.specs.Sent.{Sent, Stopped};

mod digits;
mod drivers;
mod frame;
mod instances;
mod library;
mod names;
mod nets;
mod pins;
mod ports;
mod readers;
mod sizes;

use crate::edif::drivers::drivers;
use crate::edif::frame::{contents, head, main_cell, tail};
use crate::edif::instances::{send_cell_lines, send_flop_lines};
use crate::edif::library::send_ram_cells;
use crate::edif::nets::{send_clock_net, send_nets};
use crate::edif::ports::{send_clock_line, send_port_lines};
use crate::edif::readers::ordered_readers;
use crate::edif::sizes::first_cell;
use crate::text::send_piece;
use hc_net::RawNet;
use hc_outside::{Sink, WriteErr, write_all};
use std::alloc::Global;

/// Sends the library, up to the ports of the main cell.
fn send_library<K: Sink>(
    alloc: Global,
    net: &RawNet,
    text: &mut Vec<u8>,
    out: &mut K,
) -> Result<(), WriteErr>
    requires { (K.state out.old).ready ≡ true }
    ensures ok { OnOk result (Sent (library_text net.now) text.old.items text.new.items (K.state out.old) (K.state out.new)) }
    ensures err { IfErr result (λ e. Stopped (text.old.items ++ library_text net.now) e (K.state out.old) (K.state out.new)) }
{
    send_piece(alloc, head(), text, out)?;
    send_ram_cells(alloc, net.cells.as_slice(), text, out)?;
    send_piece(alloc, main_cell(), text, out)
}

/// Sends the library, and the main cell's ports.
fn send_interface<K: Sink>(
    alloc: Global,
    net: &RawNet,
    text: &mut Vec<u8>,
    out: &mut K,
) -> Result<(), WriteErr>
    requires valid { IsValid net.now }
    requires ready { (K.state out.old).ready ≡ true }
    ensures ok { OnOk result (Sent (interface_text net.now) text.old.items text.new.items (K.state out.old) (K.state out.new)) }
    ensures err { IfErr result (λ e. Stopped (text.old.items ++ interface_text net.now) e (K.state out.old) (K.state out.new)) }
{
    send_library(alloc, net, text, out)?;
    send_clock_line(alloc, &net.clock, text, out)?;
    send_port_lines(alloc, net.ports.as_slice(), text, out)
}

/// Sends the instances, where the first cell's first net is `first`.
fn send_instances<K: Sink>(
    alloc: Global,
    net: &RawNet,
    first: u32,
    text: &mut Vec<u8>,
    out: &mut K,
) -> Result<(), WriteErr>
    requires first { first ≡ cell_base net.now }
    requires valid { IsValid net.now }
    requires ready { (K.state out.old).ready ≡ true }
    ensures ok { OnOk result (Sent (instances_text net.now) text.old.items text.new.items (K.state out.old) (K.state out.new)) }
    ensures err { IfErr result (λ e. Stopped (text.old.items ++ instances_text net.now) e (K.state out.old) (K.state out.new)) }
{
    send_piece(alloc, contents(), text, out)?;
    send_flop_lines(alloc, net.flops.as_slice(), text, out)?;
    send_cell_lines(alloc, first, net.cells.as_slice(), text, out)
}

/// Sends the nets with numbers, where the first cell's first net is `first`.
fn send_numbered_nets<K: Sink>(
    alloc: Global,
    net: &RawNet,
    first: u32,
    text: &mut Vec<u8>,
    out: &mut K,
) -> Result<(), WriteErr>
    requires first { first ≡ cell_base net.now }
    requires valid { IsValid net.now }
    requires ready { (K.state out.old).ready ≡ true }
    ensures ok { OnOk result (Sent (each_from (numbered_net (readers net.now)) 0 (drivers net.now)) text.old.items text.new.items (K.state out.old) (K.state out.new)) }
    ensures err { IfErr result (λ e. Stopped (text.old.items ++ each_from (numbered_net (readers net.now)) 0 (drivers net.now)) e (K.state out.old) (K.state out.new)) }
{
    match drivers(alloc, net, first) {
        Ok(pins) => match ordered_readers(alloc, net, first) {
            Ok(list) => send_nets(alloc, pins.as_slice(), list.as_slice(), text, out),
            Err(_) => Err(WriteErr::NoMemory),
        },
        Err(_) => Err(WriteErr::NoMemory),
    }
}

/// Sends the nets and the end of the text, where the first cell's first net is `first`.
fn send_all_nets<K: Sink>(
    alloc: Global,
    net: &RawNet,
    first: u32,
    text: &mut Vec<u8>,
    out: &mut K,
) -> Result<(), WriteErr>
    requires first { first ≡ cell_base net.now }
    requires valid { IsValid net.now }
    requires ready { (K.state out.old).ready ≡ true }
    ensures ok { OnOk result (Sent (nets_text net.now) text.old.items text.new.items (K.state out.old) (K.state out.new)) }
    ensures err { IfErr result (λ e. Stopped (text.old.items ++ nets_text net.now) e (K.state out.old) (K.state out.new)) }
{
    send_clock_net(alloc, net.flops.as_slice(), net.cells.as_slice(), text, out)?;
    send_numbered_nets(alloc, net, first, text, out)?;
    send_piece(alloc, tail(), text, out)
}

/// Sends the whole text.
fn send_edif<K: Sink>(
    alloc: Global,
    net: &RawNet,
    text: &mut Vec<u8>,
    out: &mut K,
) -> Result<(), WriteErr>
    requires valid { IsValid net.now }
    requires ready { (K.state out.old).ready ≡ true }
    ensures ok { OnOk result (Sent (edif net.now) text.old.items text.new.items (K.state out.old) (K.state out.new)) }
    ensures err { IfErr result (λ e. Stopped (text.old.items ++ edif net.now) e (K.state out.old) (K.state out.new)) }
{
    let first = first_cell(net);
    send_interface(alloc, net, text, out)?;
    send_instances(alloc, net, first, text, out)?;
    send_all_nets(alloc, net, first, text, out)
}

/// Writes a netlist as EDIF 2 0 0.
///
/// After an error a front part of the text was written. `WriteFault` comes only with a fault of the sink.
pub fn write_edif<K: Sink>(alloc: Global, net: &RawNet, out: &mut K) -> Result<(), WriteErr>
    requires ready { (K.state out.old).ready ≡ true }
    requires valid { IsValid net.now }
    ensures ok { OnOk result (Wrote (edif net.now) (K.state out.old) (K.state out.new)) }
    ensures err { OnErr result (WroteFront (edif net.now) (K.state out.old) (K.state out.new)) }
    ensures fault { IsErrOf result WriteErr.WriteFault → HasRisen (K.state out.old).faults (K.state out.new).faults }
    ensures sure { IsErrOf result WriteErr.WriteFault → (K.state out.old).sure ≡ false }
{
    let mut text = Vec::new(alloc);
    send_edif(alloc, net, &mut text, out)?;
    write_all(alloc, text.as_slice(), out)
}
