// Inner: called by rows, page and horsefile. Which cells are legal.
ghost use Rattle.std.specs.Prelude.{◌≡◌, leb};
ghost use Rattle.limits.specs.Cells.{legal_cell};
ghost use Rattle.limits.specs.declared.cells.TheConstants.{LEGAL};

// what a torn cell reads
pub const TORN: u16 = 65535;

// the greatest level of a legal cell
pub const LEGAL: u16 = 4096;

// Legal cells have the lowest levels: a torn one 0, where the sum wraps, and the others from 1 on. A loop over cells keeps the greatest
// level and tests it once, in fewer instructions than a test of each cell takes.
pub fn level(cell: u16) -> u16
    ensures { leb result LEGAL ≡ legal_cell cell }
{
    cell.wrapping_add(1)
}
