ghost use Rattle.std.specs.Prelude.{◌≡◌, ◌<◌, ◌^◌, ◌++◌, true, length, OnOk, IfErr};
ghost use Rattle.hc_net.specs.Label.{IsLabel};
ghost use Rattle.hc_net.specs.Valid.{port_name};
ghost use Rattle.hc_run.specs.Edif.{port_direction, port_width, pin_property, bit_pin, clock_line, bit_name, bit_line, port_lines, each_from};
ghost use Rattle.hc_run.specs.Sent.{Sent, Stopped};

use crate::edif::names::push_port_id;
use crate::text::{push_number, send};
use hc_net::{Label, Port};
use hc_outside::{Sink, WriteErr};
use std::alloc::{AllocError, Global};

/// Appends a label.
fn push_label(text: &mut Vec<u8>, label: &Label) -> Result<(), AllocError>
    ensures { OnOk result (text.new.items ≡ text.old.items ++ label.now) }
{
    text.extend_from_slice(label.as_bytes())
}

/// Appends a port's name.
fn push_port_name(text: &mut Vec<u8>, port: &Port) -> Result<(), AllocError>
    ensures { OnOk result (text.new.items ≡ text.old.items ++ port_name port.now) }
{
    match port {
        Port::Input { name, .. } => push_label(text, name),
        Port::Output { name, .. } => push_label(text, name),
    }
}

/// Appends a port's direction.
#[tactic(auto, unfolding(crate::specs::Edif::port_direction))]
fn push_direction(text: &mut Vec<u8>, port: &Port) -> Result<(), AllocError>
    ensures { OnOk result (text.new.items ≡ text.old.items ++ port_direction port.now) }
{
    match port {
        Port::Input { .. } => text.extend_from_slice(b" (direction INPUT)"),
        Port::Output { .. } => text.extend_from_slice(b" (direction OUTPUT)"),
    }
}

/// How many bits a port has.
pub(crate) fn port_width(port: &Port) -> u32
    ensures { result ≡ port_width port.now }
{
    match port {
        Port::Input { width, .. } => *width,
        Port::Output { width, .. } => *width,
    }
}

/// Appends the property of a pin.
#[tactic(auto, using(crate::proofs::Append::appends), unfolding(crate::specs::Edif::pin_property))]
fn push_pin_property(text: &mut Vec<u8>, pin: &Label) -> Result<(), AllocError>
    ensures { OnOk result (text.new.items ≡ text.old.items ++ pin_property pin.now) }
{
    text.extend_from_slice(b" (property PIN (string \"")?;
    push_label(text, pin)?;
    text.extend_from_slice(b"\"))")
}

/// Appends the property of a bit's pin, if the port has one for it.
#[tactic(auto, unfolding(crate::specs::Edif::bit_pin))]
fn push_bit_pin(text: &mut Vec<u8>, port: &Port, bit: u32) -> Result<(), AllocError>
    ensures { OnOk result (text.new.items ≡ text.old.items ++ bit_pin port.now bit) }
{
    let pins = match port {
        Port::Input { pins, .. } => pins,
        Port::Output { pins, .. } => pins,
    };
    match pins.as_slice().get(bit as usize) {
        Some(pin) => push_pin_property(text, pin),
        None => Ok(()),
    }
}

/// Appends the clock's port.
#[tactic(auto, using(crate::proofs::Append::appends), unfolding(crate::specs::Edif::clock_line))]
fn push_clock_line(text: &mut Vec<u8>, clock: &Label) -> Result<(), AllocError>
    ensures { OnOk result (text.new.items ≡ text.old.items ++ clock_line clock.now) }
{
    text.extend_from_slice(b"(port clk (direction INPUT)")?;
    push_pin_property(text, clock)?;
    text.extend_from_slice(b")\n")
}

/// Sends the clock's port.
pub(crate) fn send_clock_line<K: Sink>(
    alloc: Global,
    clock: &Label,
    text: &mut Vec<u8>,
    out: &mut K,
) -> Result<(), WriteErr>
    requires { (K.state out.old).ready ≡ true }
    ensures ok { OnOk result (Sent (clock_line clock.now) text.old.items text.new.items (K.state out.old) (K.state out.new)) }
    ensures err { IfErr result (λ e. Stopped (text.old.items ++ clock_line clock.now) e (K.state out.old) (K.state out.new)) }
{
    match push_clock_line(text, clock) {
        Ok(()) => send(alloc, text, out),
        Err(_) => Err(WriteErr::NoMemory),
    }
}

/// Appends the name of bit `bit` of port `number`.
#[tactic(auto, using(crate::proofs::Append::appends), unfolding(crate::specs::Edif::bit_name))]
fn push_bit_name(text: &mut Vec<u8>, number: u32, port: &Port, bit: u32) -> Result<(), AllocError>
    ensures { OnOk result (text.new.items ≡ text.old.items ++ bit_name number port.now bit) }
{
    text.extend_from_slice(b"(rename ")?;
    push_port_id(text, number, bit)?;
    text.extend_from_slice(b" \"")?;
    push_port_name(text, port)?;
    text.extend_from_slice(b"[")?;
    push_number(text, bit)?;
    text.extend_from_slice(b"]\")")
}

/// Appends bit `bit` of port `number`.
#[tactic(auto, using(crate::proofs::Append::appends), unfolding(crate::specs::Edif::bit_line))]
fn push_bit_line(text: &mut Vec<u8>, number: u32, port: &Port, bit: u32) -> Result<(), AllocError>
    ensures { OnOk result (text.new.items ≡ text.old.items ++ bit_line number port.now bit) }
{
    text.extend_from_slice(b"(port ")?;
    push_bit_name(text, number, port, bit)?;
    push_direction(text, port)?;
    push_bit_pin(text, port, bit)?;
    text.extend_from_slice(b")\n")
}

/// Sends the bits of port `number`.
fn send_bit_lines<K: Sink>(
    alloc: Global,
    number: u32,
    port: &Port,
    text: &mut Vec<u8>,
    out: &mut K,
) -> Result<(), WriteErr>
    requires { (K.state out.old).ready ≡ true }
    ensures ok { OnOk result (Sent (port_lines number port.now) text.old.items text.new.items (K.state out.old) (K.state out.new)) }
    ensures err { IfErr result (λ e. Stopped (text.old.items ++ port_lines number port.now) e (K.state out.old) (K.state out.new)) }
{
    let width = port_width(port);
    for bit in 0..width {
        match push_bit_line(text, number, port, bit) {
            Ok(()) => send(alloc, text, out)?,
            Err(_) => return Err(WriteErr::NoMemory),
        }
    }
    Ok(())
}

/// Sends the ports.
pub(crate) fn send_port_lines<K: Sink>(
    alloc: Global,
    ports: &[Port],
    text: &mut Vec<u8>,
    out: &mut K,
) -> Result<(), WriteErr>
    requires few { length ports.now < 2 ^ 32 }
    requires ready { (K.state out.old).ready ≡ true }
    ensures ok { OnOk result (Sent (each_from port_lines 0 ports.now) text.old.items text.new.items (K.state out.old) (K.state out.new)) }
    ensures err { IfErr result (λ e. Stopped (text.old.items ++ each_from port_lines 0 ports.now) e (K.state out.old) (K.state out.new)) }
{
    for (k, port) in ports.iter().enumerate() {
        send_bit_lines(alloc, k as u32, port, text, out)?;
    }
    Ok(())
}
