ghost use Rattle.std.specs.Prelude.{◌≡◌, ◌<◌, [], ◌∷◌, IfOk, All};
ghost use Rattle.hc_netsim.specs.Running.{input_widths, output_count};
ghost use Rattle.hc_circuit_tests.specs.Memory.{HasPins, first_words, memory, only_inputs, open_memory};

use hc_net::{Bits, Builder, Label, Net, Nets, NoMemory, Pins};
use hc_netsim::Gates;
use hc_num::aw;
use hc_stim::{Bench, Tick};
use std::alloc::Global;
use std::process::Abort;
use std::test::Fail;

/// The bits of an index of three words.
fn address_width() -> u32
    ensures { result ≡ 2 }
{
    aw(3)
}

/// The address, the write net and the data.
fn only_inputs(alloc: Global) -> Result<Builder, NoMemory>
    ensures { IfOk result (λ b. b ≡ only_inputs) }
{
    let clock = Label::new(alloc, b"c")?;
    let address = Label::new(alloc, b"a")?;
    let write = Label::new(alloc, b"w")?;
    let data = Label::new(alloc, b"d")?;
    let mut b = Builder::new(alloc, &clock)?;
    b.input(&address, address_width(), &Pins::new(alloc))?;
    b.input(&write, 1, &Pins::new(alloc))?;
    b.input(&data, 3, &Pins::new(alloc))?;
    Ok(b)
}

/// A RAM of the words 1, 6 and 3, which isn't driven.
fn open_memory(alloc: Global) -> Result<Builder, NoMemory>
    ensures { IfOk result (λ b. b ≡ open_memory) }
{
    let mut b = only_inputs(alloc)?;
    let words = [true, false, false, false, true, true, true, true, false];
    let init = Bits::from_slice(alloc, &words)?;
    b.ram(5, 3, 3, &init, 0)?;
    Ok(b)
}

/// The RAM, driven by the inputs, with its word as output.
fn memory(alloc: Global) -> Result<Builder, NoMemory>
    ensures { IfOk result (λ b. b ≡ memory) }
{
    let mut b = open_memory(alloc)?;
    b.drive(6, 0);
    b.drive(7, 1);
    b.drive(8, 2);
    b.drive(9, 3);
    b.drive(10, 4);
    b.drive(11, 5);
    let name = Label::new(alloc, b"q")?;
    let from = Nets::from_slice(alloc, &[12, 13, 14])?;
    b.output(&name, &Pins::new(alloc), &from)?;
    Ok(b)
}

/// The netlist of the RAM.
fn sealed_memory(alloc: Global) -> Result<Net, NoMemory>
    ensures widths { IfOk result (λ net. input_widths net.ports ≡ 2 ∷ 1 ∷ 3 ∷ []) }
    ensures outputs { IfOk result (λ net. output_count net.ports ≡ 1) }
{
    memory(alloc)?.seal()
}

/// What a clock puts on the pins of the RAM, and the word that is due in it.
#[derive(Clone, Copy)]
struct Access {
    address: u128,
    write: u128,
    value: u128,
    word: u128,
}

/// A clock that reads.
const fn reads(address: u128, word: u128) -> Access
    ensures { result ≡ record { address = address; write = 0; value = 7; word = word } }
{
    Access {
        address,
        write: 0,
        value: 7,
        word,
    }
}

/// A clock that writes.
const fn writes(address: u128, value: u128, word: u128) -> Access
    ensures { result ≡ record { address = address; write = 1; value = value; word = word } }
{
    Access {
        address,
        write: 1,
        value,
        word,
    }
}

/// Runs a clock for each access.
fn run<B: Bench>(rt: &impl Abort, bench: &mut B, trace: &[Access])
    requires ports { HasPins (B.meaning bench.old) }
    requires address { All (λ a. a.address < 4) trace.now }
    requires write { All (λ a. a.write < 2) trace.now }
    requires value { All (λ a. a.value < 8) trace.now }
    ensures { HasPins (B.meaning bench.new) }
{
    for access in trace {
        let mut outputs = [9];
        let inputs = [access.address, access.write, access.value];
        let tick = bench.clock(&inputs, &mut outputs);
        assert_eq!(rt; tick, Tick::Done);
        assert_eq!(rt; outputs[0], access.word);
    }
}

#[test]
fn writes_at_the_edge_and_inside(rt: HostRuntime) -> Result<(), Fail> {
    let net = sealed_memory(rt.alloc())?;
    let mut gates = Gates::start(rt.alloc(), &net)?;
    assert_eq!(rt; gates.word(5, 0), Some(1));
    assert_eq!(rt; gates.word(5, 1), Some(6));
    assert_eq!(rt; gates.word(5, 2), Some(3));
    assert_eq!(rt; gates.word(5, 3), None);
    assert_eq!(rt; gates.word(4, 0), None);
    run(&rt, &mut gates, &[reads(0, 1), reads(1, 6), reads(2, 3)]);
    run(&rt, &mut gates, &[writes(1, 4, 6), reads(1, 4)]);
    run(&rt, &mut gates, &[writes(3, 5, 0), reads(3, 0)]);
    run(&rt, &mut gates, &[writes(2, 5, 3), writes(2, 6, 5)]);
    run(&rt, &mut gates, &[reads(0, 1), reads(1, 4), reads(2, 6)]);
    assert_eq!(rt; gates.word(5, 0), Some(1));
    assert_eq!(rt; gates.word(5, 1), Some(4));
    assert_eq!(rt; gates.word(5, 2), Some(6));
    Ok(())
}
