ghost use Rattle.std.specs.Prelude.{◌≡◌, ◌≤◌, length, take};
ghost use Rattle.hc_net.specs.Run.{input_bits};
ghost use Rattle.hc_netsim.specs.Running.{input_widths};
ghost use Rattle.hc_netsim.specs.Pass.{bits_of, input_values};

use hc_net::Port;

/// Writes the bits of the inputs, which are the first nets, and says how many they are.
pub(crate) fn put_inputs(ports: &[Port], inputs: &[u128], values: &mut [bool]) -> usize
    requires inputs { length inputs.now ≡ length (input_widths ports.now) }
    requires room { length (input_bits ports.now) ≤ length values.old }
    ensures count { result ≡ length (input_bits ports.now) }
    ensures bits { take result values.new ≡ input_values ports.now inputs.now }
{
    let mut net = 0;
    let mut input = 0;
    for port in ports {
        let Port::Input {
            name: _,
            width,
            pins: _,
        } = port
        else {
            continue;
        };
        let width = *width as usize;
        put_bits(inputs[input], &mut values[net..net + width]);
        net += width;
        input += 1;
    }
    net
}

/// Writes the lowest bits of a number, the lowest first.
fn put_bits(number: u128, bits: &mut [bool])
    ensures { bits.new ≡ bits_of number (length bits.old) }
{
    let mut rest = number;
    for bit in bits.iter_mut() {
        *bit = rest % 2 == 1;
        rest /= 2;
    }
}
