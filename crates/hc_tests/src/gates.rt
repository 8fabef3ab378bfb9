//! Sources with threads as netlists that run: what their registers hold edge by edge.

ghost use Rattle.std.specs.Prelude.{◌≡◌, ◌<◌, ◌+◌, ◌-◌, ◌^◌, length, IfOk, OnOk, IsTrue};
ghost use Rattle.hc_build.specs.Built.{IsBuildable};
ghost use Rattle.hc_stim.specs.Bench.{AreInputs};
ghost use Rattle.hc_netsim.specs.Running.{input_widths, output_count};

use hc_build::build;
use hc_core::Core;
use hc_cycle::order;
use hc_net::{FlopName, Net, Port};
use hc_netsim::Gates;
use hc_run::{SOURCE_LIMIT, read_source};
use hc_stim::Bench;
use std::alloc::Global;
use std::test::Fail;

/// The core of a source, which can be built.
fn core_of(alloc: Global, source: &[u8]) -> Result<Core, Fail>
    ensures { IfOk result IsBuildable }
{
    if SOURCE_LIMIT < source.len() as u64 {
        return Err("too long")?;
    }
    match read_source(alloc, source) {
        Ok(core) => Ok(core),
        Err(_) => Err("refused")?,
    }
}

/// Whether there is a number for each input, each within its width.
#[tactic(auto, using(crate::proofs::Inputs::no_inputs, crate::proofs::Inputs::more_inputs))]
fn fit(ports: &[Port], inputs: &[u128]) -> bool
    ensures { IsTrue result → AreInputs (input_widths ports.now) inputs.now }
{
    match ports {
        [] => inputs.is_empty(),
        [Port::Output { .. }, behind @ ..] => fit(behind, inputs),
        [Port::Input { width, .. }, behind @ ..] => match inputs {
            [] => false,
            [first, more @ ..] => is_within(*first, *width) && fit(behind, more),
        },
    }
}

/// Whether a number fits a width of at most 128 bits.
fn is_within(number: u128, width: u32) -> bool
    ensures { IsTrue result → number < 2 ^ width }
{
    if width < 128 {
        number < 1 << width
    } else {
        width == 128
    }
}

/// Adds a place for the number of each output.
fn add_places(places: &mut Vec<u128>, ports: &[Port]) -> Result<(), Fail>
    ensures { OnOk result (length places.new.items ≡ length places.old.items + output_count ports.now) }
{
    match ports {
        [] => Ok(()),
        [Port::Input { .. }, behind @ ..] => add_places(places, behind),
        [Port::Output { .. }, behind @ ..] => {
            places.push(0)?;
            add_places(places, behind)
        }
    }
}

/// The number that the flip-flops of a register hold.
fn held(gates: &Gates, register: u32, width: u32) -> u128 {
    let mut number = 0u128;
    for bit in 0..width.min(128) {
        let name = FlopName::Bit {
            object: register,
            bit,
        };
        if gates.flop(name) == Some(true) {
            number |= 1u128 << bit;
        }
    }
    number
}

/// Whether a register holds these numbers at the edges from edge 0 on. The one input has a number for each clock of the
/// stimulus, which is empty where there is no input.
fn runs(
    alloc: Global,
    net: &Net,
    register: u32,
    width: u32,
    stimulus: &[u128],
    want: &[u128],
) -> Result<bool, Fail> {
    let ports = net.raw().ports.as_slice();
    let mut gates = Gates::start(alloc, net)?;
    for t in 0..want.len() {
        if held(&gates, register, width) != want[t] {
            return Ok(false);
        }
        let inputs = if t < stimulus.len() {
            &stimulus[t..t + 1]
        } else {
            &[]
        };
        if !fit(ports, inputs) {
            return Err("no such inputs")?;
        }
        let mut outputs = Vec::new(alloc);
        add_places(&mut outputs, ports)?;
        gates.clock(inputs, outputs.as_mut_slice());
    }
    Ok(true)
}

/// The same of the netlist of a core.
fn core_runs(
    alloc: Global,
    core: &Core,
    register: u32,
    width: u32,
    stimulus: &[u128],
    want: &[u128],
) -> Result<bool, Fail>
    requires { IsBuildable core.now }
{
    let Ok(ranks) = order(alloc, core) else {
        return Err("no order")?;
    };
    let net = build(alloc, core, &ranks)?;
    runs(alloc, &net, register, width, stimulus, want)
}

/// The same of the netlist of a source.
fn source_runs(
    alloc: Global,
    source: &str,
    register: u32,
    width: u32,
    stimulus: &[u128],
    want: &[u128],
) -> Result<bool, Fail> {
    let core = core_of(alloc, source.as_bytes())?;
    let found = core_runs(alloc, &core, register, width, stimulus, want);
    drop(core);
    found
}

const EXCHANGE: &str =
    "set clock = external \"clk\"; static unsigned 4 a = 1; static unsigned 4 b = 2;
void main(void) { par { a = b; b = a; } }";

const UNEQUAL_BRANCHES: &str = "set clock = external \"clk\"; unsigned 1 x; unsigned 1 y;
void main(void) { par { { delay; delay; } x = 1; } y = 1; }";

const WITHOUT_A_CLOCK: &str =
    "set clock = external \"clk\"; interface bus_in(unsigned 1 x) i(); unsigned 4 a; unsigned 4 b;
void main(void) { while (1) { if (i.x) a = a + 1; b = b + 1; } }";

const COUNTED: &str = "set clock = external \"clk\"; unsigned 2 i; unsigned 4 a; unsigned 1 b;
void main(void) { for (i = 0; i < 2; i++) a = a + 1; b = 1; }";

const CHOSEN: &str = "set clock = external \"clk\"; unsigned 2 x = 2; unsigned 4 y;
void main(void) { switch (x) { case 1: case 2: y = 5; break; default: y = 9; } }";

const AT_LEAST_ONCE: &str = "set clock = external \"clk\"; unsigned 2 x;
void main(void) { do { x = x + 1; } while (x != 3); }";

#[test]
fn registers_hold_edge_by_edge_what_the_source_says(rt: HostRuntime) -> Result<(), Fail> {
    let alloc = rt.alloc();
    assert!(rt; source_runs(alloc, EXCHANGE, 0, 4, &[], &[1, 2, 2])?);
    assert!(rt; source_runs(alloc, EXCHANGE, 1, 4, &[], &[2, 1, 1])?);
    assert!(rt; source_runs(alloc, UNEQUAL_BRANCHES, 0, 1, &[], &[0, 1, 1, 1])?);
    assert!(rt; source_runs(alloc, UNEQUAL_BRANCHES, 1, 1, &[], &[0, 0, 0, 1, 1])?);
    assert!(rt;
        source_runs(
            alloc,
            WITHOUT_A_CLOCK,
            1,
            4,
            &[0, 1, 0, 0, 0],
            &[0, 0, 1, 1, 1]
        )?
    );
    assert!(rt;
        source_runs(
            alloc,
            WITHOUT_A_CLOCK,
            2,
            4,
            &[0, 1, 0, 0, 0],
            &[0, 1, 1, 2, 3]
        )?
    );
    assert!(rt; source_runs(alloc, COUNTED, 1, 4, &[], &[0, 0, 1, 1, 2, 2, 2])?);
    assert!(rt; source_runs(alloc, COUNTED, 2, 1, &[], &[0, 0, 0, 0, 0, 0, 1])?);
    assert!(rt; source_runs(alloc, CHOSEN, 1, 4, &[], &[0, 5, 5])?);
    assert!(rt; source_runs(alloc, AT_LEAST_ONCE, 0, 2, &[], &[0, 1, 2, 3, 3])?);
    Ok(())
}
