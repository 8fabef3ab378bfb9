ghost use Rattle.std.specs.Prelude.{◌≡◌, ◌+◌, length, map, take};
ghost use Rattle.hc_net.specs.Run.{cell_nets, rams_of, settled, with_cells};
ghost use Rattle.hc_netsim.specs.Running.{HasRoom, input_widths, state_of};
ghost use Rattle.hc_netsim.specs.Pass.{ReadEarlier};

use crate::cells::gate_output;
use crate::inputs::put_inputs;
use crate::memory::Memory;
use hc_net::{Cell, RawNet};

/// Writes the bit of each net: of the inputs, of the flip-flops, and then of the cells, each after the nets that it reads.
pub(crate) fn settle(
    raw: &RawNet,
    state: &[bool],
    memories: &[Memory],
    inputs: &[u128],
    values: &mut [bool],
)
    requires room { HasRoom raw.now state.now memories.now values.old }
    requires inputs { length inputs.now ≡ length (input_widths raw.now.ports) }
    ensures { values.new ≡ settled raw.now (state_of state.now memories.now) inputs.now }
{
    let first_flop = put_inputs(raw.ports.as_slice(), inputs, values);
    let first_cell = first_flop + state.len();
    values[first_flop..first_cell].copy_from_slice(state);
    put_cells(raw.cells.as_slice(), memories, first_cell, values);
}

/// Writes the bits of each cell. The first cell's first net is `first`.
fn put_cells(cells: &[Cell], memories: &[Memory], first: usize, values: &mut [bool])
    requires room { length values.old ≡ first + cell_nets cells.now }
    requires rams { map (λ m. m.ram) memories.now ≡ rams_of cells.now }
    requires earlier { ReadEarlier first cells.now }
    ensures { values.new ≡ with_cells cells.now (map (λ m. m.bits) memories.now) (take first values.old) }
{
    let mut net = first;
    let mut ram = 0;
    for cell in cells {
        let Some(bit) = gate_output(&values[..net], cell) else {
            net = memories[ram].put_word(net, values);
            ram += 1;
            continue;
        };
        values[net] = bit;
        net += 1;
    }
}
