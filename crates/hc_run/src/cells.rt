//! The cells of a netlist: gates and RAMs.

ghost use Rattle.std.specs.Prelude.{◌≡◌, [], ◌∷◌, length, MatchOption};
ghost use Rattle.hc_net.specs.Run.{cell_width, ram_in, gate_count, ram_count, rams_of};

use hc_net::{Cell, RamCell};

/// The RAM that a cell is, if it is one.
pub(crate) fn ram_of(cell: &Cell) -> Option<&RamCell>
    ensures { MatchOption result (rams_of (cell.now ∷ []) ≡ []) (λ r. rams_of (cell.now ∷ []) ≡ r.now ∷ []) }
{
    match cell {
        Cell::Zero => None,
        Cell::One => None,
        Cell::Not(_) => None,
        Cell::And(_, _) => None,
        Cell::Or(_, _) => None,
        Cell::Xor(_, _) => None,
        Cell::Ram(ram) => Some(ram.get()),
    }
}

/// How many nets a cell has: a RAM one for each bit of a word, and a gate one.
pub(crate) fn cell_width(cell: &Cell) -> u32
    ensures { result ≡ cell_width cell.now }
{
    match cell {
        Cell::Zero => 1,
        Cell::One => 1,
        Cell::Not(_) => 1,
        Cell::And(_, _) => 1,
        Cell::Or(_, _) => 1,
        Cell::Xor(_, _) => 1,
        Cell::Ram(ram) => ram.get().width,
    }
}

/// 1 for a RAM, else 0.
fn ram_in(cell: &Cell) -> usize
    ensures { result ≡ ram_in cell.now }
{
    match cell {
        Cell::Zero => 0,
        Cell::One => 0,
        Cell::Not(_) => 0,
        Cell::And(_, _) => 0,
        Cell::Or(_, _) => 0,
        Cell::Xor(_, _) => 0,
        Cell::Ram(_) => 1,
    }
}

/// How many RAMs there are.
pub(crate) fn ram_count(cells: &[Cell]) -> usize
    ensures { result ≡ ram_count cells.now }
{
    let mut count = 0;
    for cell in cells {
        count += ram_in(cell);
    }
    count
}

/// How many gates there are.
pub(crate) fn gate_count(cells: &[Cell]) -> usize
    ensures { result ≡ gate_count cells.now }
{
    cells.len() - ram_count(cells)
}
