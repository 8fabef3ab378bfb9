ghost use Rattle.std.specs.Prelude.{◌≡◌, ◌+◌, ◌<◌, ◌^◌, ◌++◌, ◌∷◌, [], length, map, codes, OnOk, IfOk};
ghost use Rattle.std.specs.List.{range_with_len};
ghost use Rattle.hc_net.specs.Run.{cell_base, cell_nets};
ghost use Rattle.hc_net.specs.Valid.{IsValid};
ghost use Rattle.hc_run.specs.Edif.{each_from, each_cell, port_id, port_ref, ram_id, ram_pin, pin_ref, port_drivers, flop_driver, cell_drivers, drivers};
ghost use Rattle.hc_run.specs.Pins.{ref_of};

use crate::cells::cell_width;
use crate::edif::pins::Pin;
use hc_net::{Cell, Flop, Port, RawNet};
use std::alloc::{AllocError, Global};

/// Adds a pin.
#[tactic(auto, using(crate::proofs::Append::pushes))]
fn add(pins: &mut Vec<Pin>, pin: Pin) -> Result<(), AllocError>
    ensures { OnOk result (map ref_of pins.new.items ≡ map ref_of pins.old.items ++ ref_of pin ∷ []) }
{
    pins.push(pin)?;
    Ok(())
}

/// Adds the bits of a port.
fn add_bits(pins: &mut Vec<Pin>, number: u32, width: u32) -> Result<(), AllocError>
    ensures { OnOk result (map ref_of pins.new.items ≡ map ref_of pins.old.items ++ map (λ i. port_ref (port_id number i)) (range_with_len 0 width)) }
{
    for bit in 0..width {
        add(pins, Pin::PortBit { port: number, bit })?;
    }
    Ok(())
}

/// Adds the drivers of an input's nets.
fn add_port_drivers(pins: &mut Vec<Pin>, number: u32, port: &Port) -> Result<(), AllocError>
    ensures { OnOk result (map ref_of pins.new.items ≡ map ref_of pins.old.items ++ port_drivers number port.now) }
{
    match port {
        Port::Input { width, .. } => add_bits(pins, number, *width),
        Port::Output { .. } => Ok(()),
    }
}

/// Adds the drivers of the inputs' nets.
fn add_input_drivers(pins: &mut Vec<Pin>, ports: &[Port]) -> Result<(), AllocError>
    requires { length ports.now < 2 ^ 32 }
    ensures { OnOk result (map ref_of pins.new.items ≡ map ref_of pins.old.items ++ each_from port_drivers 0 ports.now) }
{
    for (k, port) in ports.iter().enumerate() {
        add_port_drivers(pins, k as u32, port)?;
    }
    Ok(())
}

/// Adds the drivers of the flip-flops' nets.
fn add_flop_drivers(pins: &mut Vec<Pin>, flops: &[Flop]) -> Result<(), AllocError>
    ensures { OnOk result (map ref_of pins.new.items ≡ map ref_of pins.old.items ++ map flop_driver flops.now) }
{
    for flop in flops {
        add(pins, Pin::FlopQ(flop.name))?;
    }
    Ok(())
}

/// Adds the outputs of the RAM of an object.
fn add_outputs(pins: &mut Vec<Pin>, object: u32, width: u32) -> Result<(), AllocError>
    ensures { OnOk result (map ref_of pins.new.items ≡ map ref_of pins.old.items ++ map (λ i. pin_ref (ram_pin (codes "q") i) (ram_id object)) (range_with_len 0 width)) }
{
    for bit in 0..width {
        add(pins, Pin::RamQ { object, bit })?;
    }
    Ok(())
}

/// Adds the drivers of a cell's nets, of which the first is `net`.
#[tactic(auto, unfolding(crate::specs::Pins::ref_of))]
fn add_cell(pins: &mut Vec<Pin>, net: u32, cell: &Cell) -> Result<(), AllocError>
    ensures { OnOk result (map ref_of pins.new.items ≡ map ref_of pins.old.items ++ cell_drivers net cell.now) }
{
    match cell {
        Cell::Zero => add(pins, Pin::GateY(net)),
        Cell::One => add(pins, Pin::GateY(net)),
        Cell::Not(_) => add(pins, Pin::GateY(net)),
        Cell::And(_, _) => add(pins, Pin::GateY(net)),
        Cell::Or(_, _) => add(pins, Pin::GateY(net)),
        Cell::Xor(_, _) => add(pins, Pin::GateY(net)),
        Cell::Ram(ram) => add_outputs(pins, ram.get().object, ram.get().width),
    }
}

/// Adds the drivers of the cells' nets, of which the first is `first`.
fn add_cell_drivers(pins: &mut Vec<Pin>, first: u32, cells: &[Cell]) -> Result<(), AllocError>
    requires { first + cell_nets cells.now < 2 ^ 32 }
    ensures { OnOk result (map ref_of pins.new.items ≡ map ref_of pins.old.items ++ each_cell cell_drivers first cells.now) }
{
    let mut net = first;
    for cell in cells {
        add_cell(pins, net, cell)?;
        net += cell_width(cell);
    }
    Ok(())
}

/// The driver of each net, where the first cell's first net is `first`.
#[tactic(auto, using(crate::proofs::Append::appends))]
pub(crate) fn drivers(alloc: Global, net: &RawNet, first: u32) -> Result<Vec<Pin>, AllocError>
    requires first { first ≡ cell_base net.now }
    requires valid { IsValid net.now }
    ensures { IfOk result (λ pins. map ref_of pins.items ≡ drivers net.now) }
{
    let mut pins = Vec::new(alloc);
    add_input_drivers(&mut pins, net.ports.as_slice())?;
    add_flop_drivers(&mut pins, net.flops.as_slice())?;
    add_cell_drivers(&mut pins, first, net.cells.as_slice())?;
    Ok(pins)
}
