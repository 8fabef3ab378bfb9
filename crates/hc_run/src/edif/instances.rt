ghost use Rattle.std.specs.Prelude.{◌≡◌, ◌<◌, ◌^◌, ◌+◌, ◌++◌, true, length, OnOk, IfErr};
ghost use Rattle.std.specs.List.{flat_map};
ghost use Rattle.hc_net.specs.Run.{cell_nets};
ghost use Rattle.hc_run.specs.Edif.{flop_cell, gate_id, instance_line, flop_line, ram_line, cell_line, each_cell};
ghost use Rattle.hc_run.specs.Sent.{Sent, Stopped};

use crate::cells::cell_width;
use crate::edif::digits::push_digits;
use crate::edif::names::{push_flop_id, push_gate_id, push_ram_cell, push_ram_id};
use crate::text::send;
use hc_net::{Cell, Flop, RamCell};
use hc_outside::{Sink, WriteErr};
use std::alloc::{AllocError, Global};

/// The cell of a flip-flop.
fn flop_cell(init: bool) -> &'static [u8]
    ensures { result.now ≡ flop_cell init }
{
    if init { b"HC_DFF1" } else { b"HC_DFF0" }
}

/// Appends the instance of a flip-flop.
#[tactic(auto, using(crate::proofs::Append::appends), unfolding(crate::specs::Edif::flop_line))]
fn push_flop_line(text: &mut Vec<u8>, flop: &Flop) -> Result<(), AllocError>
    ensures { OnOk result (text.new.items ≡ text.old.items ++ flop_line flop.now) }
{
    text.extend_from_slice(b"(instance ")?;
    push_flop_id(text, flop.name)?;
    text.extend_from_slice(b" (viewRef v (cellRef ")?;
    text.extend_from_slice(flop_cell(flop.init))?;
    text.extend_from_slice(b")))\n")
}

/// Appends the instance of the gate whose output is net `net`, of this cell.
#[tactic(auto, using(crate::proofs::Append::appends))]
fn push_gate_line(text: &mut Vec<u8>, net: u32, cell: &[u8]) -> Result<(), AllocError>
    ensures { OnOk result (text.new.items ≡ text.old.items ++ instance_line (gate_id net) cell.now) }
{
    text.extend_from_slice(b"(instance ")?;
    push_gate_id(text, net)?;
    text.extend_from_slice(b" (viewRef v (cellRef ")?;
    text.extend_from_slice(cell)?;
    text.extend_from_slice(b")))\n")
}

/// Appends the instance of a RAM.
#[tactic(auto, using(crate::proofs::Append::appends), unfolding(crate::specs::Edif::ram_line))]
fn push_ram_line(text: &mut Vec<u8>, ram: &RamCell) -> Result<(), AllocError>
    ensures { OnOk result (text.new.items ≡ text.old.items ++ ram_line ram.now) }
{
    text.extend_from_slice(b"(instance ")?;
    push_ram_id(text, ram.object)?;
    text.extend_from_slice(b" (viewRef v (cellRef ")?;
    push_ram_cell(text, ram.words, ram.width)?;
    text.extend_from_slice(b")) (property INIT (string \"")?;
    push_digits(text, ram.init.as_slice())?;
    text.extend_from_slice(b"\")))\n")
}

/// Appends the instance of the cell whose first output is net `net`.
#[tactic(auto, unfolding(crate::specs::Edif::cell_line))]
fn push_cell_line(text: &mut Vec<u8>, net: u32, cell: &Cell) -> Result<(), AllocError>
    ensures { OnOk result (text.new.items ≡ text.old.items ++ cell_line net cell.now) }
{
    match cell {
        Cell::Zero => push_gate_line(text, net, b"HC_GND"),
        Cell::One => push_gate_line(text, net, b"HC_VCC"),
        Cell::Not(_) => push_gate_line(text, net, b"HC_INV"),
        Cell::And(_, _) => push_gate_line(text, net, b"HC_AND2"),
        Cell::Or(_, _) => push_gate_line(text, net, b"HC_OR2"),
        Cell::Xor(_, _) => push_gate_line(text, net, b"HC_XOR2"),
        Cell::Ram(ram) => push_ram_line(text, ram.get()),
    }
}

/// Sends the instances of flip-flops.
pub(crate) fn send_flop_lines<K: Sink>(
    alloc: Global,
    flops: &[Flop],
    text: &mut Vec<u8>,
    out: &mut K,
) -> Result<(), WriteErr>
    requires { (K.state out.old).ready ≡ true }
    ensures ok { OnOk result (Sent (flat_map flop_line flops.now) text.old.items text.new.items (K.state out.old) (K.state out.new)) }
    ensures err { IfErr result (λ e. Stopped (text.old.items ++ flat_map flop_line flops.now) e (K.state out.old) (K.state out.new)) }
{
    for flop in flops {
        match push_flop_line(text, flop) {
            Ok(()) => send(alloc, text, out)?,
            Err(_) => return Err(WriteErr::NoMemory),
        }
    }
    Ok(())
}

/// Sends the instances of cells, the first of which has the first output `first`.
pub(crate) fn send_cell_lines<K: Sink>(
    alloc: Global,
    first: u32,
    cells: &[Cell],
    text: &mut Vec<u8>,
    out: &mut K,
) -> Result<(), WriteErr>
    requires few { first + cell_nets cells.now < 2 ^ 32 }
    requires ready { (K.state out.old).ready ≡ true }
    ensures ok { OnOk result (Sent (each_cell cell_line first cells.now) text.old.items text.new.items (K.state out.old) (K.state out.new)) }
    ensures err { IfErr result (λ e. Stopped (text.old.items ++ each_cell cell_line first cells.now) e (K.state out.old) (K.state out.new)) }
{
    let mut net = first;
    for cell in cells {
        match push_cell_line(text, net, cell) {
            Ok(()) => send(alloc, text, out)?,
            Err(_) => return Err(WriteErr::NoMemory),
        }
        net += cell_width(cell);
    }
    Ok(())
}
