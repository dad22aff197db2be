ghost use Rattle.std.specs.Prelude.{◌≡◌, ◌<◌, Some, slice_get};
ghost use Rattle.logic_tables.specs.Cells.{index_of, cell_at};

use level_range::Logic;

/// A table of values. Rows and columns go 0, 1, x, z; a single column is unused.
#[derive(Clone, Copy)]
pub struct Table<const R: usize, const C: usize> {
    pub cells: [[Logic; C]; R],
}

impl<const R: usize, const C: usize> Table<R, C> {
    /// The cell of row `r` and column `c`.
    pub fn at(&self, r: usize, c: usize) -> Logic
        requires row { r < R }
        requires column { c < C }
        ensures { cell_at self.now.cells r c ≡ Some result }
    {
        in_row(&self.cells[r], c)
    }
}

/// The cell of column `c` of one row.
fn in_row<const C: usize>(row: &[Logic; C], c: usize) -> Logic
    requires { c < C }
    ensures { slice_get row.now c ≡ Some result }
{
    row[c]
}

/// The row or column of a value.
pub fn index(value: Logic) -> usize
    ensures { result ≡ index_of value }
{
    match value {
        Logic::Zero => 0,
        Logic::One => 1,
        Logic::X => 2,
        Logic::Z => 3,
    }
}
