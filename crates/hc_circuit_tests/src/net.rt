ghost use Rattle.std.specs.Prelude.{◌≡◌, IfOk, OnOk};
ghost use Rattle.hc_circuit_tests.specs.Sealed.{all_gates, no_gates, open_gates, open_wires, two_wires};

use hc_net::{Builder, FlopName, GateKind, Label, Net, Nets, NoMemory, Pins, Port};
use std::alloc::Global;
use std::test::Fail;

/// Two input bits, a flip-flop and a placeholder.
fn no_gates(alloc: Global) -> Result<Builder, NoMemory>
    ensures { IfOk result (λ b. b ≡ no_gates) }
{
    let clock = Label::new(alloc, b"clk")?;
    let name = Label::new(alloc, b"a")?;
    let mut b = Builder::new(alloc, &clock)?;
    b.input(&name, 2, &Pins::new(alloc))?;
    b.flop(FlopName::Token(7), true)?;
    b.wire(0)?;
    Ok(b)
}

/// A gate of each kind.
fn add_gates(b: &mut Builder) -> Result<(), NoMemory>
    requires { b.old ≡ no_gates }
    ensures { OnOk result (b.new ≡ open_gates) }
{
    b.gate(GateKind::Zero, 0, 0)?;
    b.gate(GateKind::One, 0, 0)?;
    b.gate(GateKind::Not, 3, 0)?;
    b.gate(GateKind::And, 0, 1)?;
    b.gate(GateKind::Or, 6, 4)?;
    b.gate(GateKind::Xor, 8, 2)?;
    Ok(())
}

/// A flip-flop that is fed by gates of each kind, and a placeholder that is driven by a later gate.
fn all_gates(alloc: Global) -> Result<Builder, NoMemory>
    ensures { IfOk result (λ b. b ≡ all_gates) }
{
    let mut b = no_gates(alloc)?;
    add_gates(&mut b)?;
    b.feed(2, 9);
    b.drive(3, 7);
    let name = Label::new(alloc, b"y")?;
    let from = Nets::from_slice(alloc, &[3, 9])?;
    b.output(&name, &Pins::new(alloc), &from)?;
    Ok(b)
}

/// Two placeholders that aren't driven.
fn open_wires(alloc: Global) -> Result<Builder, NoMemory>
    ensures { IfOk result (λ b. b ≡ open_wires) }
{
    let clock = Label::new(alloc, b"clk")?;
    let name = Label::new(alloc, b"a")?;
    let mut b = Builder::new(alloc, &clock)?;
    b.input(&name, 1, &Pins::new(alloc))?;
    b.wire(1)?;
    b.wire(0)?;
    Ok(b)
}

/// Two placeholders of which the first is driven by what reads the second.
fn two_wires(alloc: Global) -> Result<Builder, NoMemory>
    ensures { IfOk result (λ b. b ≡ two_wires) }
{
    let mut b = open_wires(alloc)?;
    b.gate(GateKind::Not, 2, 0)?;
    b.drive(1, 3);
    b.drive(2, 0);
    let name = Label::new(alloc, b"y")?;
    let from = Nets::from_slice(alloc, &[1])?;
    b.output(&name, &Pins::new(alloc), &from)?;
    Ok(b)
}

/// The nets of the last port, if it is an output.
fn last_output(net: &Net) -> &[u32] {
    match net.raw().ports.as_slice() {
        [.., Port::Output { from, .. }] => from.as_slice(),
        _ => &[],
    }
}

#[test]
fn seals_gates_of_each_kind(rt: HostRuntime) -> Result<(), Fail> {
    let net = all_gates(rt.alloc())?.seal()?;
    let cells = format!(in rt.alloc(); "{:?}", net.raw().cells)?;
    assert_eq!(rt;
        cells.as_str(),
        "Items { items: [Zero, One, And(0, 1), Not(5), Or(6, 3), Xor(7, 2)] }"
    );
    let flops = format!(in rt.alloc(); "{:?}", net.raw().flops)?;
    assert_eq!(rt;
        flops.as_str(),
        "Items { items: [Flop { name: Token(7), init: true, d: 8 }] }"
    );
    assert_eq!(rt; last_output(&net), [5, 8].as_slice());
    Ok(())
}

#[test]
fn seals_placeholders_by_rank(rt: HostRuntime) -> Result<(), Fail> {
    let net = two_wires(rt.alloc())?.seal()?;
    let cells = format!(in rt.alloc(); "{:?}", net.raw().cells)?;
    assert_eq!(rt; cells.as_str(), "Items { items: [Not(0)] }");
    assert_eq!(rt; last_output(&net), [1].as_slice());
    Ok(())
}
