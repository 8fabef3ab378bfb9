ghost use Rattle.std.specs.Prelude.{◌≡◌, ◌<◌, [], ◌∷◌, IfOk, OnOk, All};
ghost use Rattle.hc_netsim.specs.Running.{input_widths, output_count};
ghost use Rattle.hc_circuit_tests.specs.Counter.{HasPorts, counter, open_flops, with_high, with_low};

use hc_net::{Builder, FlopName, GateKind, Label, Net, Nets, NoMemory, Pins};
use hc_netsim::Gates;
use hc_stim::{Bench, Tick};
use std::alloc::Global;
use std::process::Abort;
use std::test::Fail;

/// The name of a bit of the counter.
fn bit(bit: u32) -> FlopName
    ensures { result ≡ FlopName.Bit 0 bit }
{
    FlopName::Bit { object: 0, bit }
}

/// The input and the flip-flops.
fn open_flops(alloc: Global) -> Result<Builder, NoMemory>
    ensures { IfOk result (λ b. b ≡ open_flops) }
{
    let clock = Label::new(alloc, b"c")?;
    let name = Label::new(alloc, b"a")?;
    let mut b = Builder::new(alloc, &clock)?;
    b.input(&name, 2, &Pins::new(alloc))?;
    b.flop(bit(0), false)?;
    b.flop(bit(1), true)?;
    b.flop(bit(2), true)?;
    b.flop(bit(3), true)?;
    Ok(b)
}

/// The gates of the two lower bits.
fn add_low(b: &mut Builder) -> Result<(), NoMemory>
    requires { b.old ≡ open_flops }
    ensures { OnOk result (b.new ≡ with_low) }
{
    b.gate(GateKind::Xor, 0, 2)?;
    b.gate(GateKind::And, 0, 2)?;
    b.gate(GateKind::Xor, 1, 3)?;
    b.gate(GateKind::Xor, 8, 7)?;
    b.gate(GateKind::And, 1, 3)?;
    b.gate(GateKind::And, 8, 7)?;
    b.gate(GateKind::Or, 10, 11)?;
    Ok(())
}

/// The gates of the two higher bits.
fn add_high(b: &mut Builder) -> Result<(), NoMemory>
    requires { b.old ≡ with_low }
    ensures { OnOk result (b.new ≡ with_high) }
{
    b.gate(GateKind::Xor, 4, 12)?;
    b.gate(GateKind::And, 4, 12)?;
    b.gate(GateKind::Xor, 5, 14)?;
    Ok(())
}

/// A counter that adds its input, with the two lower bits as output.
fn counter(alloc: Global) -> Result<Builder, NoMemory>
    ensures { IfOk result (λ b. b ≡ counter) }
{
    let mut b = open_flops(alloc)?;
    add_low(&mut b)?;
    add_high(&mut b)?;
    b.feed(2, 6);
    b.feed(3, 9);
    b.feed(4, 13);
    b.feed(5, 15);
    let name = Label::new(alloc, b"q")?;
    let from = Nets::from_slice(alloc, &[2, 3])?;
    b.output(&name, &Pins::new(alloc), &from)?;
    Ok(b)
}

/// The netlist of the counter.
fn sealed_counter(alloc: Global) -> Result<Net, NoMemory>
    ensures widths { IfOk result (λ net. input_widths net.ports ≡ 2 ∷ []) }
    ensures outputs { IfOk result (λ net. output_count net.ports ≡ 1) }
{
    counter(alloc)?.seal()
}

/// Runs a clock for each pair of an input and the output that is due.
fn run<B: Bench>(rt: &impl Abort, bench: &mut B, trace: &[(u128, u128)])
    requires ports { HasPorts (B.meaning bench.old) }
    requires inputs { All (λ p. p.0 < 4) trace.now }
    ensures { HasPorts (B.meaning bench.new) }
{
    for (input, output) in trace {
        let mut outputs = [9];
        let tick = bench.clock(&[*input], &mut outputs);
        assert_eq!(rt; tick, Tick::Done);
        assert_eq!(rt; outputs[0], *output);
    }
}

#[test]
fn counts_clock_by_clock(rt: HostRuntime) -> Result<(), Fail> {
    let net = sealed_counter(rt.alloc())?;
    let mut gates = Gates::start(rt.alloc(), &net)?;
    assert_eq!(rt; gates.flop(bit(0)), Some(false));
    assert_eq!(rt; gates.flop(bit(3)), Some(true));
    assert_eq!(rt; gates.flop(bit(4)), None);
    assert_eq!(rt; gates.flop(FlopName::Token(0)), None);
    run(&rt, &mut gates, &[(1, 2), (0, 3), (2, 3), (3, 1)]);
    assert_eq!(rt; gates.flop(bit(0)), Some(false));
    assert_eq!(rt; gates.flop(bit(1)), Some(false));
    assert_eq!(rt; gates.flop(bit(2)), Some(true));
    assert_eq!(rt; gates.flop(bit(3)), Some(false));
    run(&rt, &mut gates, &[(3, 0), (2, 3), (0, 1)]);
    assert_eq!(rt; gates.flop(bit(3)), Some(true));
    Ok(())
}
