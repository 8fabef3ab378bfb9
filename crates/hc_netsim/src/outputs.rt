ghost use Rattle.std.specs.Prelude.{◌≡◌, ◌<◌, ◌≤◌, length, map, All};
ghost use Rattle.hc_net.specs.Run.{net_bit, output_numbers};
ghost use Rattle.hc_net.specs.Valid.{PortHasSizes, PortReadsBelow};
ghost use Rattle.hc_netsim.specs.Held.{after_edge};
ghost use Rattle.hc_netsim.specs.Pass.{RamReadsWithin};
ghost use Rattle.hc_netsim.specs.Running.{output_count};

use crate::memory::Memory;
use crate::numbers::number_on;
use hc_net::{Flop, Port};

/// Writes the number of each output.
pub(crate) fn put_outputs(ports: &[Port], values: &[bool], outputs: &mut [u128])
    requires outputs { length outputs.old ≡ output_count ports.now }
    requires nets { All (PortReadsBelow (length values.now)) ports.now }
    requires sizes { All PortHasSizes ports.now }
    ensures { outputs.new ≡ output_numbers ports.now (net_bit values.now) }
{
    let mut output = 0;
    for port in ports {
        let Port::Output {
            name: _,
            width: _,
            pins: _,
            from,
        } = port
        else {
            continue;
        };
        outputs[output] = number_on(from.as_slice(), values);
        output += 1;
    }
}

/// Writes the bit that each flip-flop takes at the edge.
pub(crate) fn put_next(flops: &[Flop], values: &[bool], state: &mut [bool])
    requires fed { All (λ f. f.d < length values.now) flops.now }
    requires room { length state.old ≡ length flops.now }
    ensures { state.new ≡ map (λ f. net_bit values.now f.d) flops.now }
{
    for (k, flop) in flops.iter().enumerate() {
        state[k] = values[flop.d as usize];
    }
}

/// Writes the word that each RAM takes at the edge.
pub(crate) fn put_words(memories: &mut [Memory], values: &[bool])
    requires { All (RamReadsWithin (length values.now)) (map (λ m. m.ram) memories.old) }
    ensures { memories.new ≡ map (after_edge (net_bit values.now)) memories.old }
{
    for k in 0..memories.len() {
        memories[k].write(values);
    }
}
