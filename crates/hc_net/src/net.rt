ghost use Rattle.std.specs.Prelude.{◌≡◌};
ghost use Rattle.hc_net.specs.Valid.{IsValid};

use crate::label::Label;
use crate::nets::Nets;
use crate::pins::Pins;
use crate::ram::RamCell;
use sqlite_items::{Boxed, Items};
use std::marker::Model;

/// A port with its name, its width in bits and its pins.
#[derive(Debug, Drop)]
pub enum Port {
    Input {
        name: Label,
        width: u32,
        pins: Pins,
    },
    /// `from` has the net of each bit.
    Output {
        name: Label,
        width: u32,
        pins: Pins,
        from: Nets,
    },
}

/// The ports of a netlist, in order.
pub type Ports = Items<Port>;

/// The name of a flip-flop: a bit of an object of the source, or a token of its control.
#[derive(Clone, Copy, Debug, PartialEq, Eq)]
pub enum FlopName {
    Bit { object: u32, bit: u32 },
    Token(u32),
}

/// A flip-flop: it starts with `init`, and at each edge it takes the bit of the net `d`.
#[derive(Clone, Copy, Debug)]
pub struct Flop {
    pub name: FlopName,
    pub init: bool,
    pub d: u32,
}

/// The flip-flops of a netlist, in order.
pub type Flops = Items<Flop>;

/// A gate with the nets that it reads, or a RAM.
#[derive(Debug, Drop)]
pub enum Cell {
    Zero,
    One,
    Not(u32),
    And(u32, u32),
    Or(u32, u32),
    Xor(u32, u32),
    Ram(Boxed<RamCell>),
}

/// The gates and RAMs of a netlist, in order.
pub type Cells = Items<Cell>;

/// The data of a netlist. Nets are numbered: input bits, then flip-flops, then the outputs of
/// cells, a RAM giving one for each bit of a word.
#[derive(Debug, Drop)]
pub struct RawNet {
    pub clock: Label,
    pub ports: Ports,
    pub flops: Flops,
    pub cells: Cells,
}

/// A valid netlist.
#[derive(Debug, Drop)]
pub struct Net {
    raw: RawNet,
}

impl Model for Net {
    ghost use Rattle.hc_net.specs.declared.net.RawNet.{RawNet};
    ghost use Rattle.hc_net.specs.Valid.{IsValid};

    ghost Value = { RawNet };

    ghost view = { λ n. n.raw };

    ghost invariant = { λ n. IsValid n.raw };
}

impl Net {
    /// The netlist with these data, which keep the rules of a valid netlist.
    pub fn from_raw(raw: RawNet) -> Net
        requires { IsValid raw }
        ensures { result ≡ raw }
    {
        Net { raw }
    }

    /// The data of the netlist.
    pub fn raw(&self) -> &RawNet
        ensures raw { result.now ≡ self.now }
        ensures valid { IsValid result.now }
    {
        &self.raw
    }
}
