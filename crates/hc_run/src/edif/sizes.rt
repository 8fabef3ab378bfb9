ghost use Rattle.std.specs.Prelude.{◌≡◌, ◌<◌, ◌^◌};
ghost use Rattle.hc_net.specs.Run.{cell_base};
ghost use Rattle.hc_net.specs.Valid.{IsValid};
ghost use Rattle.hc_run.specs.Pins.{input_width, input_total};

use hc_net::{Port, RawNet};

/// How many bits an input has, and 0 for an output.
fn input_width(port: &Port) -> u32
    ensures { result ≡ input_width port.now }
{
    match port {
        Port::Input { width, .. } => *width,
        Port::Output { .. } => 0,
    }
}

/// How many bits all inputs have.
fn input_total(ports: &[Port]) -> u32
    requires { input_total ports.now < 2 ^ 32 }
    ensures { result ≡ input_total ports.now }
{
    let mut total = 0;
    for port in ports {
        total += input_width(port);
    }
    total
}

/// The first net of the first cell.
pub(crate) fn first_cell(net: &RawNet) -> u32
    requires { IsValid net.now }
    ensures { result ≡ cell_base net.now }
{
    input_total(net.ports.as_slice()) + net.flops.len() as u32
}
