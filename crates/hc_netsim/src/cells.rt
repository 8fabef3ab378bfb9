ghost use Rattle.std.specs.Prelude.{◌≡◌, length, MatchOption};
ghost use Rattle.hc_net.specs.Run.{gate_in};
ghost use Rattle.hc_net.specs.Valid.{CellReadsBelow};
ghost use Rattle.hc_net.specs.declared.net.Cell.TheVariants.{Ram};
ghost use Rattle.hc_netsim.specs.Pass.{gate_output};

use hc_net::{Cell, RamCell};

/// The RAM that a cell is; `None` for a gate.
pub(crate) fn ram_of(cell: &Cell) -> Option<&RamCell>
    ensures { MatchOption result (gate_in cell.now ≡ 1) (λ r. cell.now ≡ Ram r.now) }
{
    match cell {
        Cell::Zero => None,
        Cell::One => None,
        Cell::Not(_) => None,
        Cell::And(_, _) => None,
        Cell::Or(_, _) => None,
        Cell::Xor(_, _) => None,
        Cell::Ram(ram) => Some(ram.get()),
    }
}

/// The output of a gate; `None` for a RAM.
pub(crate) fn gate_output(values: &[bool], cell: &Cell) -> Option<bool>
    requires { CellReadsBelow (length values.now) cell.now }
    ensures { result ≡ gate_output values.now cell.now }
{
    match cell {
        Cell::Zero => Some(false),
        Cell::One => Some(true),
        Cell::Not(a) => Some(!values[*a as usize]),
        Cell::And(a, b) => Some(values[*a as usize] && values[*b as usize]),
        Cell::Or(a, b) => Some(values[*a as usize] || values[*b as usize]),
        Cell::Xor(a, b) => Some(values[*a as usize] != values[*b as usize]),
        Cell::Ram(_) => None,
    }
}
