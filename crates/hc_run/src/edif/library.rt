ghost use Rattle.std.specs.Prelude.{◌≡◌, ◌++◌, [], true, codes, OnOk, IfOk, IfErr};
ghost use Rattle.hc_net.specs.Run.{rams_of};
ghost use Rattle.hc_run.specs.Edif.{ram_pin, cell_port, cell_ports, ram_cell_line, shape_lines, ram_cell_lines, with_shapes};
ghost use Rattle.hc_run.specs.Sent.{Sent, Stopped};

use crate::cells::ram_of;
use crate::edif::names::{push_ram_cell, push_ram_pin};
use crate::text::send;
use hc_net::Cell;
use hc_num::aw;
use hc_outside::{Sink, WriteErr};
use std::alloc::{AllocError, Global};
use std::collections::BTreeSet;

/// A number of words and a width.
type Shape = (u32, u32);

/// The shapes of the RAMs.
fn shapes(alloc: Global, cells: &[Cell]) -> Result<BTreeSet<Shape>, AllocError>
    ensures { IfOk result (λ shapes. shapes.keys ≡ with_shapes [] (rams_of cells.now)) }
{
    let mut shapes = BTreeSet::new(alloc);
    for cell in cells {
        if let Some(ram) = ram_of(cell) {
            let _ = shapes.insert((ram.words, ram.width))?;
        }
    }
    Ok(shapes)
}

/// Appends a port of a cell.
#[tactic(auto, using(crate::proofs::Append::appends), unfolding(crate::specs::Edif::cell_port))]
fn push_port(text: &mut Vec<u8>, name: &[u8], direction: &[u8]) -> Result<(), AllocError>
    ensures { OnOk result (text.new.items ≡ text.old.items ++ cell_port name.now direction.now) }
{
    text.extend_from_slice(b" (port ")?;
    text.extend_from_slice(name)?;
    text.extend_from_slice(b" (direction ")?;
    text.extend_from_slice(direction)?;
    text.extend_from_slice(b"))")?;
    Ok(())
}

/// Appends the port of a cell that a letter and a number name.
#[tactic(auto, using(crate::proofs::Append::appends), unfolding(crate::specs::Edif::cell_port))]
fn push_numbered_port(
    text: &mut Vec<u8>,
    letter: &[u8],
    bit: u32,
    direction: &[u8],
) -> Result<(), AllocError>
    ensures { OnOk result (text.new.items ≡ text.old.items ++ cell_port (ram_pin letter.now bit) direction.now) }
{
    text.extend_from_slice(b" (port ")?;
    push_ram_pin(text, letter, bit)?;
    text.extend_from_slice(b" (direction ")?;
    text.extend_from_slice(direction)?;
    text.extend_from_slice(b"))")?;
    Ok(())
}

/// Appends the ports of a cell with the numbers below `count`.
fn push_ports(
    text: &mut Vec<u8>,
    letter: &[u8],
    count: u32,
    direction: &[u8],
) -> Result<(), AllocError>
    ensures { OnOk result (text.new.items ≡ text.old.items ++ cell_ports letter.now count direction.now) }
{
    for bit in 0..count {
        push_numbered_port(text, letter, bit, direction)?;
    }
    Ok(())
}

/// Appends the cell of RAMs of `words` words of `width` bits.
#[tactic(auto, using(crate::proofs::Append::appends), unfolding(crate::specs::Edif::ram_cell_line))]
fn push_ram_cell_line(text: &mut Vec<u8>, words: u32, width: u32) -> Result<(), AllocError>
    ensures { OnOk result (text.new.items ≡ text.old.items ++ ram_cell_line words width) }
{
    text.extend_from_slice(b"(cell ")?;
    push_ram_cell(text, words, width)?;
    text.extend_from_slice(b" (cellType GENERIC) (view v (viewType NETLIST) (interface")?;
    push_ports(text, b"q", width, b"OUTPUT")?;
    push_ports(text, b"a", aw(words), b"INPUT")?;
    push_ports(text, b"d", width, b"INPUT")?;
    push_port(text, b"we", b"INPUT")?;
    push_port(text, b"c", b"INPUT")?;
    text.extend_from_slice(b")))\n")
}

/// Sends a cell for each shape.
fn send_shapes<K: Sink>(
    alloc: Global,
    shapes: &BTreeSet<Shape>,
    text: &mut Vec<u8>,
    out: &mut K,
) -> Result<(), WriteErr>
    requires { (K.state out.old).ready ≡ true }
    ensures ok { OnOk result (Sent (shape_lines shapes.now.keys) text.old.items text.new.items (K.state out.old) (K.state out.new)) }
    ensures err { IfErr result (λ e. Stopped (text.old.items ++ shape_lines shapes.now.keys) e (K.state out.old) (K.state out.new)) }
{
    for (words, width) in shapes {
        match push_ram_cell_line(text, *words, *width) {
            Ok(()) => send(alloc, text, out)?,
            Err(_) => return Err(WriteErr::NoMemory),
        }
    }
    Ok(())
}

/// Sends the cells of the RAMs.
pub(crate) fn send_ram_cells<K: Sink>(
    alloc: Global,
    cells: &[Cell],
    text: &mut Vec<u8>,
    out: &mut K,
) -> Result<(), WriteErr>
    requires { (K.state out.old).ready ≡ true }
    ensures ok { OnOk result (Sent (ram_cell_lines cells.now) text.old.items text.new.items (K.state out.old) (K.state out.new)) }
    ensures err { IfErr result (λ e. Stopped (text.old.items ++ ram_cell_lines cells.now) e (K.state out.old) (K.state out.new)) }
{
    match shapes(alloc, cells) {
        Ok(shapes) => send_shapes(alloc, &shapes, text, out),
        Err(_) => Err(WriteErr::NoMemory),
    }
}
