ghost use Rattle.std.specs.Prelude.{IfOk};
ghost use Rattle.hc_net.specs.Circuit.{IsBuilt};
ghost use Rattle.hc_net.specs.Seal.{IsSealable, Seals};

mod cells;
mod order;
mod parts;
mod places;

use crate::label::Label;
use crate::net::{Net, Ports, RawNet};
use crate::nets::NoMemory;
use crate::node::Nodes;
use std::alloc::Global;

/// The netlist of what a builder has collected. Input bits and flip-flops get their places first. Then each net gets
/// its place after those that it reads in the same clock: a gate and a RAM those of a new cell, a placeholder that of its
/// driver. At last the nets of flip-flops, RAMs and outputs are renamed.
pub(crate) fn sealed(
    alloc: Global,
    clock: Label,
    ports: Ports,
    nodes: &Nodes,
) -> Result<Net, NoMemory>
    requires built { IsBuilt (record { clock = clock; ports = ports; nodes = nodes.now }) }
    requires sealable { IsSealable (record { clock = clock; ports = ports; nodes = nodes.now }) }
    ensures { IfOk result (Seals (record { clock = clock; ports = ports; nodes = nodes.now })) }
{
    let nodes = nodes.as_slice();
    let order = order::order(alloc, nodes)?;
    let (mut places, base) = places::first_places(alloc, nodes)?;
    let cells = cells::cells(alloc, nodes, order.as_slice(), base, places.as_mut_slice())?;
    drop(order);
    let cells = parts::cells(alloc, cells, places.as_slice())?;
    let flops = parts::flops(alloc, nodes, places.as_slice())?;
    let ports = parts::ports(alloc, ports, places.as_slice())?;
    Ok(Net::from_raw(RawNet {
        clock,
        ports,
        flops,
        cells,
    }))
}
