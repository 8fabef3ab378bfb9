ghost use Rattle.std.specs.Prelude.{◌≡◌, length};
ghost use Rattle.hc_net.specs.Run.{net_bit, next_state, output_numbers, settled};
ghost use Rattle.hc_netsim.specs.Running.{HasRoom, input_widths, output_count, state_of};

use crate::memory::Memory;
use crate::outputs::{put_next, put_outputs, put_words};
use crate::settle::settle;
use hc_net::RawNet;

/// Runs a clock: the nets, the outputs on them, and then the edge.
pub(crate) fn run_clock(
    raw: &RawNet,
    state: &mut [bool],
    memories: &mut [Memory],
    values: &mut [bool],
    inputs: &[u128],
    outputs: &mut [u128],
)
    requires room { HasRoom raw.now state.old memories.old values.old }
    requires inputs { length inputs.now ≡ length (input_widths raw.now.ports) }
    requires outputs { length outputs.old ≡ output_count raw.now.ports }
    ensures room { HasRoom raw.now state.new memories.new values.new }
    ensures outputs { outputs.new ≡ output_numbers raw.now.ports (net_bit (settled raw.now (state_of state.old memories.old) inputs.now)) }
    ensures state { state_of state.new memories.new
        ≡ next_state raw.now (state_of state.old memories.old) (settled raw.now (state_of state.old memories.old) inputs.now) }
{
    settle(raw, state, memories, inputs, values);
    put_outputs(raw.ports.as_slice(), values, outputs);
    put_next(raw.flops.as_slice(), values, state);
    put_words(memories, values);
}
