ghost use Rattle.std.specs.Prelude.{◌≡◌, ◌+◌, ◌<◌, ◌^◌, ◌++◌, ◌∷◌, [], length, map, All, codes, OnOk, IfOk};
ghost use Rattle.hc_net.specs.Run.{cell_base, cell_nets, rams_of};
ghost use Rattle.hc_net.specs.Valid.{IsValid, RamHasSizes};
ghost use Rattle.hc_run.specs.Edif.{each_from, each_cell, port_id, port_ref, flop_reader, ram_readers, cell_readers, port_readers, readers};
ghost use Rattle.hc_run.specs.Pins.{ref_of, read_by, HasNets, IsOrdered};

use crate::cells::cell_width;
use crate::edif::pins::{Pin, Reader};
use hc_net::{Cell, Flop, Port, RamCell, RawNet};
use std::alloc::{AllocError, Global};

/// Adds a pin that reads net `net`.
#[tactic(auto, using(crate::proofs::Append::pushes))]
fn add(list: &mut Vec<Reader>, net: u32, pin: Pin) -> Result<(), AllocError>
    ensures { OnOk result (map read_by list.new.items ≡ map read_by list.old.items ++ (net, ref_of pin) ∷ []) }
{
    list.push(Reader { net, pin })?;
    Ok(())
}

/// Adds the pins of flip-flops that read nets.
fn add_flop_readers(list: &mut Vec<Reader>, flops: &[Flop]) -> Result<(), AllocError>
    ensures { OnOk result (map read_by list.new.items ≡ map read_by list.old.items ++ map flop_reader flops.now) }
{
    for flop in flops {
        add(list, flop.d, Pin::FlopD(flop.name))?;
    }
    Ok(())
}

/// Adds the two inputs of the gate whose output is net `net`.
fn add_two(list: &mut Vec<Reader>, net: u32, a: u32, b: u32) -> Result<(), AllocError>
    ensures { OnOk result (map read_by list.new.items ≡ map read_by list.old.items ++ cell_readers net (Cell.And a b)) }
{
    add(list, a, Pin::GateA(net))?;
    add(list, b, Pin::GateB(net))
}

/// Adds the address pins of the RAM of an object.
fn add_address(list: &mut Vec<Reader>, object: u32, nets: &[u32]) -> Result<(), AllocError>
    requires { length nets.now < 2 ^ 32 }
    ensures { OnOk result (map read_by list.new.items ≡ map read_by list.old.items ++ ram_readers (codes "a") object nets.now) }
{
    for (i, net) in nets.iter().enumerate() {
        let bit = i as u32;
        add(list, *net, Pin::RamA { object, bit })?;
    }
    Ok(())
}

/// Adds the data pins of the RAM of an object.
fn add_data(list: &mut Vec<Reader>, object: u32, nets: &[u32]) -> Result<(), AllocError>
    requires { length nets.now < 2 ^ 32 }
    ensures { OnOk result (map read_by list.new.items ≡ map read_by list.old.items ++ ram_readers (codes "d") object nets.now) }
{
    for (i, net) in nets.iter().enumerate() {
        let bit = i as u32;
        add(list, *net, Pin::RamD { object, bit })?;
    }
    Ok(())
}

/// Adds the inputs of a RAM.
fn add_ram(list: &mut Vec<Reader>, net: u32, ram: &RamCell) -> Result<(), AllocError>
    requires { RamHasSizes ram.now }
    ensures { OnOk result (map read_by list.new.items ≡ map read_by list.old.items ++ cell_readers net (Cell.Ram ram.now)) }
{
    add_address(list, ram.object, ram.addr.as_slice())?;
    add_data(list, ram.object, ram.d.as_slice())?;
    add(list, ram.we, Pin::RamWe(ram.object))
}

/// Adds the inputs of the cell whose first output is net `net`.
#[tactic(auto, unfolding(crate::specs::Pins::ref_of))]
fn add_cell(list: &mut Vec<Reader>, net: u32, cell: &Cell) -> Result<(), AllocError>
    requires { All RamHasSizes (rams_of (cell.now ∷ [])) }
    ensures { OnOk result (map read_by list.new.items ≡ map read_by list.old.items ++ cell_readers net cell.now) }
{
    match cell {
        Cell::Zero => Ok(()),
        Cell::One => Ok(()),
        Cell::Not(a) => add(list, *a, Pin::GateA(net)),
        Cell::And(a, b) => add_two(list, net, *a, *b),
        Cell::Or(a, b) => add_two(list, net, *a, *b),
        Cell::Xor(a, b) => add_two(list, net, *a, *b),
        Cell::Ram(ram) => add_ram(list, net, ram.get()),
    }
}

/// Adds the inputs of cells, of which the first has the first output `first`.
fn add_cell_readers(list: &mut Vec<Reader>, first: u32, cells: &[Cell]) -> Result<(), AllocError>
    requires few { first + cell_nets cells.now < 2 ^ 32 }
    requires sizes { All RamHasSizes (rams_of cells.now) }
    ensures { OnOk result (map read_by list.new.items ≡ map read_by list.old.items ++ each_cell cell_readers first cells.now) }
{
    let mut net = first;
    for cell in cells {
        add_cell(list, net, cell)?;
        net += cell_width(cell);
    }
    Ok(())
}

/// Adds the bits of an output, which reads these nets.
fn add_bits(list: &mut Vec<Reader>, number: u32, from: &[u32]) -> Result<(), AllocError>
    requires { length from.now < 2 ^ 32 }
    ensures { OnOk result (map read_by list.new.items ≡ map read_by list.old.items ++ each_from (λ i n. (n, port_ref (port_id number i)) ∷ []) 0 from.now) }
{
    for (i, net) in from.iter().enumerate() {
        add(
            list,
            *net,
            Pin::PortBit {
                port: number,
                bit: i as u32,
            },
        )?;
    }
    Ok(())
}

/// Adds the bits of an output.
fn add_port(list: &mut Vec<Reader>, number: u32, port: &Port) -> Result<(), AllocError>
    requires { HasNets port.now }
    ensures { OnOk result (map read_by list.new.items ≡ map read_by list.old.items ++ port_readers number port.now) }
{
    match port {
        Port::Input { .. } => Ok(()),
        Port::Output { width, from, .. } => {
            let _width = *width;
            add_bits(list, number, from.as_slice())
        }
    }
}

/// Adds the bits of outputs.
fn add_port_readers(list: &mut Vec<Reader>, ports: &[Port]) -> Result<(), AllocError>
    requires few { length ports.now < 2 ^ 32 }
    requires nets { All HasNets ports.now }
    ensures { OnOk result (map read_by list.new.items ≡ map read_by list.old.items ++ each_from port_readers 0 ports.now) }
{
    for (k, port) in ports.iter().enumerate() {
        add_port(list, k as u32, port)?;
    }
    Ok(())
}

/// All pins that read nets, where the first cell's first net is `first`.
#[tactic(auto, using(crate::proofs::Append::appends))]
fn readers(alloc: Global, net: &RawNet, first: u32) -> Result<Vec<Reader>, AllocError>
    requires first { first ≡ cell_base net.now }
    requires valid { IsValid net.now }
    ensures { IfOk result (λ list. map read_by list.items ≡ readers net.now) }
{
    let mut list = Vec::new(alloc);
    add_flop_readers(&mut list, net.flops.as_slice())?;
    add_cell_readers(&mut list, first, net.cells.as_slice())?;
    add_port_readers(&mut list, net.ports.as_slice())?;
    Ok(list)
}

/// All pins that read nets in the order of the nets, where the first cell's first net is `first`.
pub(crate) fn ordered_readers(
    alloc: Global,
    net: &RawNet,
    first: u32,
) -> Result<Vec<Reader>, AllocError>
    requires first { first ≡ cell_base net.now }
    requires valid { IsValid net.now }
    ensures { IfOk result (λ list. IsOrdered (readers net.now) (map read_by list.items)) }
{
    let mut list = readers(alloc, net, first)?;
    list.sort_by_key(|reader| reader.net)?;
    Ok(list)
}
