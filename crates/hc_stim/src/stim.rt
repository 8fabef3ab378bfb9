ghost use Rattle.std.specs.Prelude.{◌≡◌, ◌≤◌, ◌<◌, ◌+◌, take, drop, length, slice_index_or, [], IfOk, IfErr};
ghost use Rattle.hc_stim.specs.StimErr.{IfBadLine};
ghost use Rattle.hc_stim.specs.Text.{AreWidths, StimText};

use crate::line::read_line;
use std::alloc::Global;
use std::marker::Model;

/// The width of each input, in bits.
pub type Widths = Vec<u32>;

/// The numbers of the inputs, a line for each clock. Contracts see the list of its lines.
#[derive(Debug, Drop)]
pub struct Stim {
    inputs: usize,
    clocks: u64,
    values: Vec<u128>,
}

impl Model for Stim {
    ghost use Rattle.std.specs.Prelude.{List, ℕ};

    ghost Value = { List (List ℕ) };

    ghost use Rattle.hc_stim.specs.Lines.{lines, IsFull};

    ghost view = { lines };

    ghost invariant = { IsFull };
}

impl Stim {
    /// How many clocks there are.
    pub fn clocks(&self) -> u64
        ensures { result ≡ length self.now }
    {
        self.clocks
    }

    /// The numbers of the inputs in clock k, counted from 0.
    pub fn line(&self, k: u64) -> &[u128]
        requires { k < length self.now }
        ensures { result.now ≡ slice_index_or self.now k [] }
    {
        let values = self.values.as_slice();
        part(values, k as usize * self.inputs, self.inputs)
    }
}

/// So many numbers of a list, from one on.
fn part(values: &[u128], start: usize, count: usize) -> &[u128]
    requires { start + count ≤ length values.now }
    ensures { result.now ≡ take count (drop start values.now) }
{
    &values[start..start + count]
}

/// Why a text is no stimulus.
#[derive(Debug, Drop)]
pub enum StimErr {
    /// The first line that breaks the rules of a stimulus, counted from 1: it hasn't one number for each input, in decimal
    /// without leading zeros and below `2^width`, with one space between two of them.
    BadLine(u64),
    /// There wasn't enough memory.
    NoMemory,
}

/// Reads a stimulus: a line for each clock, with a number for each input.
///
/// `BadLine` comes exactly where a line breaks the rules, and names the first.
pub fn read_stim(alloc: Global, bytes: &[u8], widths: &Widths) -> Result<Stim, StimErr>
    requires { AreWidths widths.now.items }
    ensures stim { IfOk result (StimText bytes.now widths.now.items) }
    ensures bad_line { IfErr result (IfBadLine bytes.now widths.now.items) }
{
    let mut values = Vec::new(alloc);
    let mut clocks = 0;
    let mut rest = bytes;
    while !rest.is_empty() {
        match read_line(rest, widths.as_slice(), &mut values) {
            Ok(Some(behind)) => rest = behind,
            Ok(None) => return Err(StimErr::BadLine(clocks + 1)),
            Err(_) => return Err(StimErr::NoMemory),
        }
        clocks += 1;
    }
    Ok(Stim {
        inputs: widths.len(),
        clocks,
        values,
    })
}
