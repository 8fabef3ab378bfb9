ghost use Rattle.std.specs.Prelude.{◌≡◌, ◌<◌, ◌≤◌, ℕ, suc, ◌+◌, ◌*◌, ◌^◌, List, [], length, map, Option, Some, None, slice_get, slice_set, IfOk, OnOk, OnErr, All, ◌∷◌, ◌++◌, ◌-◌, ◌⊎◌, take};
ghost use Rattle.std.specs.List.{range_with_len};
ghost use Rattle.hc_num.specs.Index.{index_width};
ghost use Rattle.hc_net.specs.Ram.{held_at, read_bits};
ghost use Rattle.hc_net.specs.Gate.{gate_bit};
ghost use Rattle.hc_net.specs.Run.{Trace};
ghost use Rattle.hc_net.specs.Circuit.{Circuit, History, with_node, with_node_at, with_input, with_output, with_ram, ram_at, wires_at, IsAlone, input_count, Explains, Extends, GateReadsBelow, IsUnfed, IsUndriven, node_at, constant_at, reading, input_bits_of, input_nodes, NodeReadsWithin};
ghost use Rattle.hc_net.specs.Seal.{IsSealable, Seals};
ghost use Rattle.hc_net.specs.declared.node.Node.{Node};
ghost use Rattle.hc_net.specs.declared.node.Node.TheVariants.{Flop, Wire, Gate};

use crate::gate::GateKind;
use crate::label::Label;
use crate::net::{FlopName, Net, Port, Ports};
use crate::nets::{Nets, NoMemory};
use crate::node::{Node, Nodes};
use crate::pins::Pins;
use crate::ram::{Bits, RamCell, RamWires};
use crate::ram_nodes::{add_ram, boxed};
use crate::seal::sealed;
use hc_num::aw;
use sqlite_items::Items;
use std::alloc::Global;
use std::marker::Model;

/// Collects a netlist. Each net that a call gives is the number of its node. Every call takes only nets that this
/// builder gave, and leaves the builder as it was where it answers `NoMemory`.
#[derive(Drop)]
pub struct Builder {
    alloc: Global,
    clock: Label,
    ports: Ports,
    nodes: Nodes,
    inputs: u32,
}

impl Model for Builder {
    ghost use Rattle.std.specs.Prelude.{◌≡◌};
    ghost use Rattle.hc_net.specs.Circuit.{Circuit, IsBuilt, input_count};

    ghost Value = { Circuit };

    ghost view = { λ b. record { clock = b.clock; ports = b.ports; nodes = b.nodes } };

    ghost invariant = { λ b. (b.inputs ≡ input_count b.ports) × IsBuilt (record { clock = b.clock; ports = b.ports; nodes = b.nodes }) };
}

impl Builder {
    /// A builder with this clock pin and nothing else.
    pub fn new(alloc: Global, clock: &Label) -> Result<Builder, NoMemory>
        ensures { IfOk result (λ b. b ≡ record { clock = clock.now; ports = []; nodes = [] }) }
    {
        let clock = Label::new(alloc, clock.as_bytes())?;
        Ok(Builder {
            alloc,
            clock,
            ports: Items::new(alloc),
            nodes: Items::new(alloc),
            inputs: 0,
        })
    }

    /// Adds a node that is no input and no part of a RAM.
    fn add(&mut self, node: Node) -> Result<u32, NoMemory>
        requires room { length self.old.nodes + 1 < 2 ^ 32 }
        requires other { IsAlone node }
        requires nets { NodeReadsWithin (length self.old.nodes) (length self.old.nodes) node }
        ensures ok { IfOk result (λ net. (net ≡ length self.old.nodes) × (self.new ≡ with_node self.old node)) }
        ensures earlier { OnOk result (Extends self.old.nodes self.new.nodes) }
        ensures err { OnErr result (self.new ≡ self.old) }
    {
        let net = self.nodes.len() as u32;
        match self.nodes.push(node) {
            Ok(()) => Ok(net),
            Err(_) => Err(NoMemory),
        }
    }

    /// Names the net that a flip-flop or a placeholder reads.
    fn connect(&mut self, net: u32, from: u32)
        requires net { net < length self.old.nodes }
        requires from { from < length self.old.nodes }
        requires unread { IsUnfed (node_at self.old.nodes net) ⊎ IsUndriven (node_at self.old.nodes net) }
        ensures connected { self.new ≡ with_node_at self.old net (reading from (node_at self.old.nodes net)) }
        ensures earlier { Extends self.old.nodes self.new.nodes }
    {
        read_from(&mut self.nodes, net, from);
    }

    /// Adds an input port, and gives the net of each bit. The pins are none or one for each bit (a rule of `seal`).
    pub fn input(&mut self, name: &Label, width: u32, pins: &Pins) -> Result<Nets, NoMemory>
        requires nets { length self.old.nodes + width < 2 ^ 32 }
        requires ports { length self.old.ports + 1 < 2 ^ 32 }
        ensures ok { IfOk result (λ nets. (nets ≡ range_with_len (length self.old.nodes) width)
            × (self.new ≡ with_input self.old name.now width pins.now)) }
        ensures earlier { OnOk result (Extends self.old.nodes self.new.nodes) }
        ensures err { OnErr result (self.new ≡ self.old) }
    {
        let net = self.nodes.len() as u32;
        let nets = run_of_nets(self.alloc, net, width)?;
        let port = Port::Input {
            name: Label::new(self.alloc, name.as_bytes())?,
            width,
            pins: pins.copy(self.alloc)?,
        };
        add_input(&mut self.ports, &mut self.nodes, port, self.inputs, width)?;
        self.inputs += 1;
        Ok(nets)
    }

    /// Adds an output port with the net of each bit.
    pub fn output(&mut self, name: &Label, pins: &Pins, from: &Nets) -> Result<(), NoMemory>
        requires ports { length self.old.ports + 1 < 2 ^ 32 }
        requires nets { All (λ k. k < length self.old.nodes) from.now }
        ensures ok { OnOk result (self.new ≡ with_output self.old name.now pins.now from.now) }
        ensures err { OnErr result (self.new ≡ self.old) }
    {
        let width = from.len().min(u32::MAX as usize) as u32;
        let port = Port::Output {
            name: Label::new(self.alloc, name.as_bytes())?,
            width,
            pins: pins.copy(self.alloc)?,
            from: Nets::from_slice(self.alloc, from.as_slice())?,
        };
        match self.ports.push(port) {
            Ok(()) => Ok(()),
            Err(_) => Err(NoMemory),
        }
    }

    /// Adds a flip-flop that starts with `init`, and gives its output. It is fed by `feed`.
    pub fn flop(&mut self, name: FlopName, init: bool) -> Result<u32, NoMemory>
        requires { length self.old.nodes + 1 < 2 ^ 32 }
        ensures ok { IfOk result (λ net. (net ≡ length self.old.nodes)
            × (self.new ≡ with_node self.old (Flop name init None))) }
        ensures earlier { OnOk result (Extends self.old.nodes self.new.nodes) }
        ensures value { IfOk result (λ net. (trace : Trace) (h : History) → Explains self.new.nodes trace h → h 0 net ≡ init) }
        ensures err { OnErr result (self.new ≡ self.old) }
    {
        self.add(Node::Flop {
            name,
            init,
            d: None,
        })
    }

    /// Feeds a flip-flop that wasn't fed yet: from each edge on it has the bit that `d` had before the edge.
    pub fn feed(&mut self, output: u32, d: u32)
        requires flop { IsUnfed (node_at self.old.nodes output) }
        requires net { d < length self.old.nodes }
        ensures fed { self.new ≡ with_node_at self.old output (reading d (node_at self.old.nodes output)) }
        ensures earlier { Extends self.old.nodes self.new.nodes }
        ensures value { (trace : Trace) (h : History) → Explains self.new.nodes trace h → (t : ℕ) → h (suc t) output ≡ h t d }
    {
        self.connect(output, d);
    }

    /// Adds a placeholder of this rank, whose driver is named later by `drive`. Ranks keep loops of gates out: what
    /// drives a placeholder reaches back through gates only placeholders of smaller rank (a rule of `seal`).
    pub fn wire(&mut self, rank: u32) -> Result<u32, NoMemory>
        requires { length self.old.nodes + 1 < 2 ^ 32 }
        ensures ok { IfOk result (λ net. (net ≡ length self.old.nodes)
            × (self.new ≡ with_node self.old (Wire rank None))) }
        ensures earlier { OnOk result (Extends self.old.nodes self.new.nodes) }
        ensures err { OnErr result (self.new ≡ self.old) }
    {
        self.add(Node::Wire {
            rank: u64::from(rank),
            from: None,
        })
    }

    /// Names the driver of a placeholder that wasn't driven yet.
    pub fn drive(&mut self, wire: u32, from: u32)
        requires there { wire < length self.old.nodes }
        requires wire { IsUndriven (node_at self.old.nodes wire) }
        requires net { from < length self.old.nodes }
        ensures driven { self.new ≡ with_node_at self.old wire (reading from (node_at self.old.nodes wire)) }
        ensures earlier { Extends self.old.nodes self.new.nodes }
        ensures value { (trace : Trace) (h : History) → Explains self.new.nodes trace h → (t : ℕ) → h t wire ≡ h t from }
    {
        self.connect(wire, from);
    }

    /// Adds a gate on the nets `a` and `b`, and gives its output. An input that the kind doesn't use is 0.
    pub fn gate(&mut self, kind: GateKind, a: u32, b: u32) -> Result<u32, NoMemory>
        requires room { length self.old.nodes + 1 < 2 ^ 32 }
        requires nets { GateReadsBelow (length self.old.nodes) kind a b }
        ensures ok { IfOk result (λ net. (net ≡ length self.old.nodes)
            × (self.new ≡ with_node self.old (Gate kind a b))) }
        ensures earlier { OnOk result (Extends self.old.nodes self.new.nodes) }
        ensures value { IfOk result (λ net. (trace : Trace) (h : History) → Explains self.new.nodes trace h
            → (t : ℕ) → h t net ≡ gate_bit kind (h t a) (h t b)) }
        ensures err { OnErr result (self.new ≡ self.old) }
    {
        self.add(Node::Gate { kind, a, b })
    }

    /// Adds a RAM of `words` words of `width` bits that starts with `init`, or a ROM where its write net is driven by 0.
    /// Its address, its write net and its data are placeholders that `drive` connects. What drives the address reaches
    /// back through gates only placeholders and RAMs of rank below this one (a rule of `seal`).
    pub fn ram(
        &mut self,
        object: u32,
        words: u32,
        width: u32,
        init: &Bits,
        rank: u32,
    ) -> Result<RamWires, NoMemory>
        requires width { 1 ≤ width }
        requires room { length self.old.nodes + (index_width words + 1 + 2 * width) < 2 ^ 32 }
        ensures ok { IfOk result (λ wires. (wires ≡ wires_at (length self.old.nodes) words width)
            × (self.new ≡ with_ram self.old object words width init.now rank)) }
        ensures earlier { OnOk result (Extends self.old.nodes self.new.nodes) }
        ensures value { IfOk result (λ wires. (trace : Trace) (h : History) → Explains self.new.nodes trace h
            → let ram = ram_at (length self.old.nodes) object words width init.now in
            (t : ℕ) → map (h t) wires.q ≡ read_bits ram (held_at ram h t) (h t)) }
        ensures err { OnErr result (self.new ≡ self.old) }
    {
        let net = self.nodes.len() as u32;
        let we = net + aw(words);
        let first = we + 1 + width;
        let ram = RamCell {
            object,
            words,
            width,
            init: Bits::from_slice(self.alloc, init.as_slice())?,
            addr: run_of_nets(self.alloc, net, aw(words))?,
            we,
            d: run_of_nets(self.alloc, we + 1, width)?,
        };
        let wires = RamWires {
            q: run_of_nets(self.alloc, first, width)?,
            addr: run_of_nets(self.alloc, net, aw(words))?,
            we,
            d: run_of_nets(self.alloc, we + 1, width)?,
        };
        let ram = boxed(self.alloc, ram)?;
        add_ram(&mut self.nodes, ram, rank, first)?;
        Ok(wires)
    }

    /// The constant that a net has in every clock by its gate, `Zero` or `One`; `None` for any other net.
    pub fn constant(&self, net: u32) -> Option<bool>
        requires { net < length self.now.nodes }
        ensures { result ≡ constant_at (node_at self.now.nodes net) }
    {
        self.nodes.as_slice()[net as usize].constant()
    }

    /// The netlist: its ports and flip-flops in order, its RAMs, no more gates than were added, and each net with its bit.
    pub fn seal(self) -> Result<Net, NoMemory>
        requires { IsSealable self }
        ensures { IfOk result (Seals self) }
    {
        let Builder {
            alloc,
            clock,
            ports,
            nodes,
            inputs: _,
        } = self;
        sealed(alloc, clock, ports, &nodes)
    }
}

/// Names the net that a flip-flop or a placeholder reads. Any other node stays as it is.
fn read_from(nodes: &mut Nodes, net: u32, from: u32)
    requires { net < length nodes.old }
    ensures { nodes.new ≡ slice_set nodes.old net (reading from (node_at nodes.old net)) }
{
    if let Some(node) = nodes.as_slice()[net as usize].reading(from) {
        nodes.set(net as usize, node);
    }
}

/// The nets from `first` on, `count` of them.
fn run_of_nets(alloc: Global, first: u32, count: u32) -> Result<Nets, NoMemory>
    requires { first + count < 2 ^ 32 }
    ensures { IfOk result (λ nets. nets ≡ range_with_len first count) }
{
    let mut nets = Nets::new(alloc);
    for i in 0..count {
        nets.push(first + i)?;
    }
    Ok(nets)
}

/// Adds a port and the nodes of its bits. An error leaves both lists as they were.
fn add_input(
    ports: &mut Ports,
    nodes: &mut Nodes,
    port: Port,
    number: u32,
    width: u32,
) -> Result<(), NoMemory>
    ensures ok { OnOk result ((ports.new ≡ ports.old ++ port ∷ []) × (nodes.new ≡ nodes.old ++ input_nodes number width)) }
    ensures err { OnErr result ((ports.new ≡ ports.old) × (nodes.new ≡ nodes.old)) }
{
    if ports.push(port).is_err() {
        return Err(NoMemory);
    }
    match add_input_nodes(nodes, number, width) {
        Ok(()) => Ok(()),
        Err(NoMemory) => {
            let _ = ports.pop();
            Err(NoMemory)
        }
    }
}

/// Adds a node for each bit of an input port. An error leaves the list as it was.
fn add_input_nodes(nodes: &mut Nodes, port: u32, width: u32) -> Result<(), NoMemory>
    ensures ok { OnOk result (nodes.new ≡ nodes.old ++ input_nodes port width) }
    ensures err { OnErr result (nodes.new ≡ nodes.old) }
{
    for bit in 0..width {
        match nodes.push(Node::Input { port, bit }) {
            Ok(()) => {}
            Err(_) => {
                drop_last(nodes, bit);
                return Err(NoMemory);
            }
        }
    }
    Ok(())
}

/// Takes the last `count` nodes away.
fn drop_last(nodes: &mut Nodes, count: u32)
    ensures { nodes.new ≡ take (length nodes.old - count) nodes.old }
{
    for dropped in 0..count {
        let _ = nodes.pop();
    }
}
