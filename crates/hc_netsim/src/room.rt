ghost use Rattle.std.specs.Prelude.{◌≡◌, ◌<◌, ◌^◌, map, length, IfOk, All};
ghost use Rattle.hc_net.specs.Run.{cell_nets, input_bits, net_count, rams_of};
ghost use Rattle.hc_net.specs.Valid.{IsValid, RamHasSizes};
ghost use Rattle.hc_netsim.specs.Held.{first_held};

use crate::cells::ram_of;
use crate::memory::Memory;
use hc_net::{Cell, Flop, NoMemory, Port, RawNet};
use std::alloc::Global;

/// The bits that flip-flops start with.
pub(crate) fn first_bits(alloc: Global, flops: &[Flop]) -> Result<Vec<bool>, NoMemory>
    ensures { IfOk result (λ bits. bits.items ≡ map (λ f. f.init) flops.now) }
{
    let Ok(mut bits) = Vec::with_capacity(alloc, flops.len()) else {
        return Err(NoMemory);
    };
    for flop in flops {
        match bits.push(flop.init) {
            Ok(()) => {}
            Err(_) => return Err(NoMemory),
        }
    }
    Ok(bits)
}

/// The RAMs with the words that they start with.
pub(crate) fn first_memories<'a>(
    alloc: Global,
    cells: &'a [Cell],
) -> Result<Vec<Memory<'a>>, NoMemory>
    requires { All RamHasSizes (rams_of cells.now) }
    ensures { IfOk result (λ memories. memories.items ≡ map first_held (rams_of cells.now)) }
{
    let mut memories = Vec::new(alloc);
    for cell in cells {
        let Some(ram) = ram_of(cell) else {
            continue;
        };
        match memories.push(Memory::new(alloc, ram)?) {
            Ok(()) => {}
            Err(_) => return Err(NoMemory),
        }
    }
    Ok(memories)
}

/// A bit for each net.
pub(crate) fn net_bits(alloc: Global, raw: &RawNet) -> Result<Vec<bool>, NoMemory>
    requires { IsValid raw.now }
    ensures { IfOk result (λ bits. length bits.items ≡ net_count raw.now) }
{
    let nets = input_nets(raw.ports.as_slice()) + raw.flops.len() + cell_nets(raw.cells.as_slice());
    match vec![in alloc; false; nets] {
        Ok(bits) => Ok(bits),
        Err(_) => Err(NoMemory),
    }
}

/// How many nets the inputs have.
fn input_nets(ports: &[Port]) -> usize
    requires { length (input_bits ports.now) < 2 ^ 32 }
    ensures { result ≡ length (input_bits ports.now) }
{
    let mut nets = 0;
    for port in ports {
        let Port::Input {
            name: _,
            width,
            pins: _,
        } = port
        else {
            continue;
        };
        nets += *width as usize;
    }
    nets
}

/// How many nets the cells have.
fn cell_nets(cells: &[Cell]) -> usize
    requires { cell_nets cells.now < 2 ^ 32 }
    ensures { result ≡ cell_nets cells.now }
{
    let mut nets = 0;
    for cell in cells {
        nets += match ram_of(cell) {
            Some(ram) => ram.width as usize,
            None => 1,
        };
    }
    nets
}
