ghost use Rattle.std.specs.Prelude.{◌≡◌, IfOk};

use crate::symbols::Sym;
use std::alloc::{AllocError, Global};
use std::marker::Model;

/// The symbols of a row's inputs, in port order. Contracts see the list of them.
#[derive(Debug, Drop)]
pub struct SymList {
    symbols: Vec<Sym>,
}

impl Model for SymList {
    ghost use Rattle.std.specs.Prelude.{List};
    ghost use Rattle.udp_table.specs.declared.symbols.Sym.{Sym};

    ghost Value = { List Sym };

    ghost view = { λ s. s.symbols.items };
}

impl SymList {
    /// The symbols of a vector, which is kept.
    pub fn from_vec(symbols: Vec<Sym>) -> SymList
        ensures { result ≡ symbols.items }
    {
        SymList { symbols }
    }

    /// The vector that holds the symbols.
    pub fn into_vec(self) -> Vec<Sym>
        ensures { result.items ≡ self }
    {
        self.symbols
    }

    pub fn as_slice(&self) -> &[Sym]
        ensures { result.now ≡ self.now }
    {
        self.symbols.as_slice()
    }

    /// A copy of the list.
    pub fn copied(&self, alloc: Global) -> Result<SymList, AllocError>
        ensures { IfOk result (λ s. s ≡ self.now) }
    {
        Ok(SymList {
            symbols: self.symbols.as_slice().to_vec(alloc)?,
        })
    }
}

/// A row of a user-defined primitive (IEEE 1364-2005, 8.1.4): a symbol for each input, one for the
/// present state where the primitive is sequential, and one for the output.
#[derive(Debug, Drop)]
pub struct UdpRow {
    pub ins: SymList,
    pub state: Option<Sym>,
    pub out: Sym,
}

impl UdpRow {
    /// A copy of the row.
    pub fn copied(&self, alloc: Global) -> Result<UdpRow, AllocError>
        ensures { IfOk result (λ row. row ≡ self.now) }
    {
        Ok(UdpRow {
            ins: self.ins.copied(alloc)?,
            state: self.state,
            out: self.out,
        })
    }
}

/// Rows in their order. Contracts see the list of them.
#[derive(Debug, Drop)]
pub struct RowList {
    rows: Vec<UdpRow>,
}

impl Model for RowList {
    ghost use Rattle.std.specs.Prelude.{List};
    ghost use Rattle.udp_table.specs.declared.rows.UdpRow.{UdpRow};

    ghost Value = { List UdpRow };

    ghost view = { λ r. r.rows.items };
}

impl RowList {
    /// The rows of a vector, which is kept.
    pub fn from_vec(rows: Vec<UdpRow>) -> RowList
        ensures { result ≡ rows.items }
    {
        RowList { rows }
    }

    /// The vector that holds the rows.
    pub fn into_vec(self) -> Vec<UdpRow>
        ensures { result.items ≡ self }
    {
        self.rows
    }

    pub fn as_slice(&self) -> &[UdpRow]
        ensures { result.now ≡ self.now }
    {
        self.rows.as_slice()
    }

    /// A copy of the list.
    pub fn copied(&self, alloc: Global) -> Result<RowList, AllocError>
        ensures { IfOk result (λ rows. rows ≡ self.now) }
    {
        let mut rows = Vec::new(alloc);
        for row in self.rows.as_slice() {
            rows.push(row.copied(alloc)?)?;
        }
        Ok(RowList { rows })
    }
}
