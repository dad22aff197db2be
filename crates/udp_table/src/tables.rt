ghost use Rattle.std.specs.Prelude.{◌≡◌, ◌<◌, Some, slice_get};
ghost use Rattle.udp_table.specs.Tables.{cell_at, value_cells, edge_cells, AreValues, AreChanges};

/// A table of symbols: one row for a symbol, one column for a value or a change.
#[derive(Clone, Copy)]
pub struct SymTable<const R: usize, const C: usize> {
    pub cells: [[bool; C]; R],
}

impl<const R: usize, const C: usize> SymTable<R, C> {
    /// The cell of row `r` and column `c`.
    pub fn at(&self, r: usize, c: usize) -> bool
        requires row { r < R }
        requires column { c < C }
        ensures { cell_at self.now.cells r c ≡ Some result }
    {
        in_row(&self.cells[r], c)
    }
}

/// The cell of column `c` of one row.
fn in_row<const C: usize>(row: &[bool; C], c: usize) -> bool
    requires { c < C }
    ensures { slice_get row.now c ≡ Some result }
{
    row[c]
}

/// Writes a table row by row, 1 for each value or change that the symbol of the row has.
macro_rules! symbols {
    ($([$($cell:tt)*])*) => {
        SymTable { cells: [$([$(symbols!(@ $cell)),*]),*] }
    };
    (@ 0) => { false };
    (@ 1) => { true };
}

/// The values of symbols (IEEE 1364-2005, table 8-1). Rows go `0 1 x ? b`, columns 0, 1, x.
pub fn value_table() -> SymTable<5, 3>
    ensures cells { result.cells ≡ value_cells }
    ensures symbols { AreValues result.cells }
{
    symbols! {
        [1 0 0]
        [0 1 0]
        [0 0 1]
        [1 1 1]
        [1 1 0]
    }
}

/// The changes of symbols (IEEE 1364-2005, table 8-1). Rows go `r f p n *`, columns (01), (0x),
/// (10), (1x), (x0), (x1).
pub fn edge_table() -> SymTable<5, 6>
    ensures cells { result.cells ≡ edge_cells }
    ensures symbols { AreChanges result.cells }
{
    symbols! {
        [1 0 0 0 0 0]
        [0 0 1 0 0 0]
        [1 1 0 0 0 1]
        [0 0 1 1 1 0]
        [1 1 1 1 1 1]
    }
}
