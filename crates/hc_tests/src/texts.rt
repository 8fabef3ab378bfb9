//! The texts of a job by example: they must be ones that others read.
ghost use Rattle.std.specs.Prelude.{◌≡◌, IfOk};
ghost use Rattle.hc_tests.specs.Sample.{small};

use hc_net::{Builder, FlopName, GateKind, Label, Nets, NoMemory, Pins};
use hc_outside::MemSink;
use hc_run::{refusal_line, write_edif};
use hc_tree::{Detail, Name, Node, Place, Refusal, Rule};
use sqlite_items::Items;
use std::alloc::Global;
use std::test::Fail;

/// The line of a refusal.
fn refused(
    alloc: Global,
    rule: Rule,
    line: u32,
    column: u32,
    detail: Detail,
) -> Result<Vec<u8>, Fail> {
    let place = Place { line, column };
    Ok(refusal_line(
        alloc,
        &Refusal {
            rule,
            place,
            detail,
        },
    )?)
}

#[test]
fn says_what_a_refusal_says(rt: HostRuntime) -> Result<(), Fail> {
    let alloc = rt.alloc();
    let bare = refused(alloc, Rule::S16, 3, 19, Detail::Nothing)?;
    assert_eq!(rt; bare.as_slice(), b"refused S16 at 3:19\n".as_slice());
    let name = Detail::Name(Name::new(alloc, b"c")?);
    let named = refused(alloc, Rule::S18, 2, 17, name)?;
    assert_eq!(rt; named.as_slice(), b"refused S18 at 2:17: c\n".as_slice());
    let pair = refused(alloc, Rule::S9, 3, 19, Detail::Pair(8, 4))?;
    assert_eq!(rt; pair.as_slice(), b"refused S9 at 3:19: 8 4\n".as_slice());
    let mut nodes = Items::new(alloc);
    nodes.push((Node::Value(0), Name::new(alloc, b"s")?))?;
    nodes.push((Node::Sends(1), Name::new(alloc, b"c")?))?;
    nodes.push((Node::Receives(1), Name::new(alloc, b"c")?))?;
    let cycle = refused(alloc, Rule::S17, 2, 19, Detail::Cycle(nodes))?;
    assert_eq!(rt;
        cycle.as_slice(),
        b"refused S17 at 2:19: s c! c?\n".as_slice()
    );
    Ok(())
}

/// An input that reaches a flip-flop through a gate, and an output.
fn small_circuit(alloc: Global) -> Result<Builder, NoMemory>
    ensures { IfOk result (λ b. b ≡ small) }
{
    let mut b = Builder::new(alloc, &Label::new(alloc, b"clk")?)?;
    b.input(&Label::new(alloc, b"i")?, 1, &Pins::new(alloc))?;
    b.flop(FlopName::Bit { object: 0, bit: 0 }, false)?;
    b.gate(GateKind::Not, 0, 0)?;
    b.feed(1, 2);
    let from = Nets::from_slice(alloc, &[1])?;
    b.output(&Label::new(alloc, b"o")?, &Pins::new(alloc), &from)?;
    Ok(b)
}

const SMALL: &[u8] = b"(edif hc (edifVersion 2 0 0) (edifLevel 0) (keywordMap (keywordLevel 0))\n\
(library hc (edifLevel 0) (technology (numberDefinition))\n\
(cell HC_GND (cellType GENERIC) (view v (viewType NETLIST) (interface (port y (direction OUTPUT)))))\n\
(cell HC_VCC (cellType GENERIC) (view v (viewType NETLIST) (interface (port y (direction OUTPUT)))))\n\
(cell HC_INV (cellType GENERIC) (view v (viewType NETLIST) (interface (port y (direction OUTPUT)) (port a (direction INPUT)))))\n\
(cell HC_AND2 (cellType GENERIC) (view v (viewType NETLIST) (interface (port y (direction OUTPUT)) (port a (direction INPUT)) (port b (direction INPUT)))))\n\
(cell HC_OR2 (cellType GENERIC) (view v (viewType NETLIST) (interface (port y (direction OUTPUT)) (port a (direction INPUT)) (port b (direction INPUT)))))\n\
(cell HC_XOR2 (cellType GENERIC) (view v (viewType NETLIST) (interface (port y (direction OUTPUT)) (port a (direction INPUT)) (port b (direction INPUT)))))\n\
(cell HC_DFF0 (cellType GENERIC) (view v (viewType NETLIST) (interface (port q (direction OUTPUT)) (port d (direction INPUT)) (port c (direction INPUT)))))\n\
(cell HC_DFF1 (cellType GENERIC) (view v (viewType NETLIST) (interface (port q (direction OUTPUT)) (port d (direction INPUT)) (port c (direction INPUT)))))\n\
(cell main (cellType GENERIC) (view v (viewType NETLIST) (interface\n\
(port clk (direction INPUT) (property PIN (string \"clk\")))\n\
(port (rename p0_0 \"i[0]\") (direction INPUT))\n\
(port (rename p1_0 \"o[0]\") (direction OUTPUT))\n\
)\n\
(contents\n\
(instance R0_0 (viewRef v (cellRef HC_DFF0)))\n\
(instance g2 (viewRef v (cellRef HC_INV)))\n\
(net nc (joined (portRef clk) (portRef c (instanceRef R0_0))))\n\
(net n0 (joined (portRef p0_0) (portRef a (instanceRef g2))))\n\
(net n1 (joined (portRef q (instanceRef R0_0)) (portRef p1_0)))\n\
(net n2 (joined (portRef y (instanceRef g2)) (portRef d (instanceRef R0_0))))\n\
))))\n\
(design main (cellRef main (libraryRef hc))))\n";

#[test]
fn writes_a_small_netlist(rt: HostRuntime) -> Result<(), Fail> {
    let alloc = rt.alloc();
    let net = small_circuit(alloc)?.seal()?;
    let mut out = MemSink::new(alloc);
    write_edif(alloc, net.raw(), &mut out)?;
    assert_eq!(rt; out.bytes(), SMALL);
    Ok(())
}
