ghost use Rattle.std.specs.Prelude.{◌≡◌, ◌++◌, OnOk};
ghost use Rattle.hc_run.specs.Edif.{port_id, flop_id, gate_id, ram_id, ram_pin, port_ref, pin_ref};
ghost use Rattle.hc_run.specs.Pins.{ref_of, ref_part};

use crate::edif::names::{push_flop_id, push_gate_id, push_port_id, push_ram_id, push_ram_pin};
use hc_net::FlopName;
use std::alloc::AllocError;

/// A pin that a net joins. A gate is named by the net of its output, and a RAM by its object.
#[derive(Clone, Copy, Debug)]
pub(crate) enum Pin {
    PortBit { port: u32, bit: u32 },
    FlopD(FlopName),
    FlopQ(FlopName),
    FlopC(FlopName),
    GateA(u32),
    GateB(u32),
    GateY(u32),
    RamQ { object: u32, bit: u32 },
    RamA { object: u32, bit: u32 },
    RamD { object: u32, bit: u32 },
    RamWe(u32),
    RamC(u32),
}

/// A pin that reads a net.
#[derive(Clone, Copy, Debug)]
pub(crate) struct Reader {
    pub net: u32,
    pub pin: Pin,
}

/// Appends how a net names the pin `port` of a flip-flop.
#[tactic(auto, using(crate::proofs::Append::appends), unfolding(crate::specs::Edif::pin_ref))]
fn push_flop_ref(text: &mut Vec<u8>, port: &[u8], name: FlopName) -> Result<(), AllocError>
    ensures { OnOk result (text.new.items ≡ text.old.items ++ pin_ref port.now (flop_id name)) }
{
    text.extend_from_slice(b"(portRef ")?;
    text.extend_from_slice(port)?;
    text.extend_from_slice(b" (instanceRef ")?;
    push_flop_id(text, name)?;
    text.extend_from_slice(b"))")
}

/// Appends how a net names the pin `port` of a gate.
#[tactic(auto, using(crate::proofs::Append::appends), unfolding(crate::specs::Edif::pin_ref))]
fn push_gate_ref(text: &mut Vec<u8>, port: &[u8], net: u32) -> Result<(), AllocError>
    ensures { OnOk result (text.new.items ≡ text.old.items ++ pin_ref port.now (gate_id net)) }
{
    text.extend_from_slice(b"(portRef ")?;
    text.extend_from_slice(port)?;
    text.extend_from_slice(b" (instanceRef ")?;
    push_gate_id(text, net)?;
    text.extend_from_slice(b"))")
}

/// Appends how a net names the pin `port` of the RAM of an object.
#[tactic(auto, using(crate::proofs::Append::appends), unfolding(crate::specs::Edif::pin_ref))]
fn push_ram_ref(text: &mut Vec<u8>, port: &[u8], object: u32) -> Result<(), AllocError>
    ensures { OnOk result (text.new.items ≡ text.old.items ++ pin_ref port.now (ram_id object)) }
{
    text.extend_from_slice(b"(portRef ")?;
    text.extend_from_slice(port)?;
    text.extend_from_slice(b" (instanceRef ")?;
    push_ram_id(text, object)?;
    text.extend_from_slice(b"))")
}

/// Appends how a net names the pin of the RAM of an object that a letter and a number name.
#[tactic(auto, using(crate::proofs::Append::appends), unfolding(crate::specs::Edif::pin_ref))]
fn push_bit_ref(text: &mut Vec<u8>, letter: &[u8], bit: u32, object: u32) -> Result<(), AllocError>
    ensures { OnOk result (text.new.items ≡ text.old.items ++ pin_ref (ram_pin letter.now bit) (ram_id object)) }
{
    text.extend_from_slice(b"(portRef ")?;
    push_ram_pin(text, letter, bit)?;
    text.extend_from_slice(b" (instanceRef ")?;
    push_ram_id(text, object)?;
    text.extend_from_slice(b"))")
}

/// Appends how a net names a bit of a port.
#[tactic(auto, using(crate::proofs::Append::appends), unfolding(crate::specs::Edif::port_ref))]
fn push_port_ref(text: &mut Vec<u8>, port: u32, bit: u32) -> Result<(), AllocError>
    ensures { OnOk result (text.new.items ≡ text.old.items ++ port_ref (port_id port bit)) }
{
    text.extend_from_slice(b"(portRef ")?;
    push_port_id(text, port, bit)?;
    text.extend_from_slice(b")")
}

/// Appends how a net names a pin.
#[tactic(auto, unfolding(crate::specs::Pins::ref_of))]
pub(crate) fn push_ref(text: &mut Vec<u8>, pin: Pin) -> Result<(), AllocError>
    ensures { OnOk result (text.new.items ≡ text.old.items ++ ref_of pin) }
{
    match pin {
        Pin::PortBit { port, bit } => push_port_ref(text, port, bit),
        Pin::FlopD(name) => push_flop_ref(text, b"d", name),
        Pin::FlopQ(name) => push_flop_ref(text, b"q", name),
        Pin::FlopC(name) => push_flop_ref(text, b"c", name),
        Pin::GateA(net) => push_gate_ref(text, b"a", net),
        Pin::GateB(net) => push_gate_ref(text, b"b", net),
        Pin::GateY(net) => push_gate_ref(text, b"y", net),
        Pin::RamQ { object, bit } => push_bit_ref(text, b"q", bit, object),
        Pin::RamA { object, bit } => push_bit_ref(text, b"a", bit, object),
        Pin::RamD { object, bit } => push_bit_ref(text, b"d", bit, object),
        Pin::RamWe(object) => push_ram_ref(text, b"we", object),
        Pin::RamC(object) => push_ram_ref(text, b"c", object),
    }
}

/// Appends a pin after the ones before it.
#[tactic(auto, using(crate::proofs::Append::appends), unfolding(crate::specs::Pins::ref_part))]
pub(crate) fn push_ref_part(text: &mut Vec<u8>, pin: Pin) -> Result<(), AllocError>
    ensures { OnOk result (text.new.items ≡ text.old.items ++ ref_part pin) }
{
    text.extend_from_slice(b" ")?;
    push_ref(text, pin)
}
