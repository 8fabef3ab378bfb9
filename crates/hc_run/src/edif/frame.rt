ghost use Rattle.std.specs.Prelude.{◌≡◌};
ghost use Rattle.hc_run.specs.Edif.{head_lines, main_lines, contents_lines, tail_lines};
ghost use Rattle.hc_run.specs.Pins.{clock_head, net_end};

/// The library up to the cells of flip-flops.
#[tactic(auto, unfolding(crate::specs::Edif::head_lines))]
pub(crate) fn head() -> &'static [u8]
    ensures { result.now ≡ head_lines }
{
    b"(edif hc (edifVersion 2 0 0) (edifLevel 0) (keywordMap (keywordLevel 0))\n\
(library hc (edifLevel 0) (technology (numberDefinition))\n\
(cell HC_GND (cellType GENERIC) (view v (viewType NETLIST) (interface (port y (direction OUTPUT)))))\n\
(cell HC_VCC (cellType GENERIC) (view v (viewType NETLIST) (interface (port y (direction OUTPUT)))))\n\
(cell HC_INV (cellType GENERIC) (view v (viewType NETLIST) (interface (port y (direction OUTPUT)) (port a (direction INPUT)))))\n\
(cell HC_AND2 (cellType GENERIC) (view v (viewType NETLIST) (interface (port y (direction OUTPUT)) (port a (direction INPUT)) (port b (direction INPUT)))))\n\
(cell HC_OR2 (cellType GENERIC) (view v (viewType NETLIST) (interface (port y (direction OUTPUT)) (port a (direction INPUT)) (port b (direction INPUT)))))\n\
(cell HC_XOR2 (cellType GENERIC) (view v (viewType NETLIST) (interface (port y (direction OUTPUT)) (port a (direction INPUT)) (port b (direction INPUT)))))\n\
(cell HC_DFF0 (cellType GENERIC) (view v (viewType NETLIST) (interface (port q (direction OUTPUT)) (port d (direction INPUT)) (port c (direction INPUT)))))\n\
(cell HC_DFF1 (cellType GENERIC) (view v (viewType NETLIST) (interface (port q (direction OUTPUT)) (port d (direction INPUT)) (port c (direction INPUT)))))\n"
}

/// The main cell up to its ports.
#[tactic(auto, unfolding(crate::specs::Edif::main_lines))]
pub(crate) fn main_cell() -> &'static [u8]
    ensures { result.now ≡ main_lines }
{
    b"(cell main (cellType GENERIC) (view v (viewType NETLIST) (interface\n"
}

/// The end of the main cell's ports.
#[tactic(auto, unfolding(crate::specs::Edif::contents_lines))]
pub(crate) fn contents() -> &'static [u8]
    ensures { result.now ≡ contents_lines }
{
    b")\n(contents\n"
}

/// The end of the text.
#[tactic(auto, unfolding(crate::specs::Edif::tail_lines))]
pub(crate) fn tail() -> &'static [u8]
    ensures { result.now ≡ tail_lines }
{
    b"))))\n(design main (cellRef main (libraryRef hc))))\n"
}

/// The clock's net up to the first flip-flop.
#[tactic(auto, unfolding(crate::specs::Pins::clock_head))]
pub(crate) fn clock_head() -> &'static [u8]
    ensures { result.now ≡ clock_head }
{
    b"(net nc (joined (portRef clk)"
}

/// The end of a net.
#[tactic(auto, unfolding(crate::specs::Pins::net_end))]
pub(crate) fn net_end() -> &'static [u8]
    ensures { result.now ≡ net_end }
{
    b"))\n"
}
