//! Names that come once, and names that come again.
ghost use Rattle.std.specs.Prelude.{◌≡◌, OnOk, map};
ghost use Rattle.name_table.specs.Names.{is_among};
ghost use Rattle.primitive_rules.specs.Counting.{came_once, count_name, count_names, no_counts};

use name_table::NameTable;
use std::alloc::{AllocError, Global};
use v_tree::{Name, UdpInput};

/// The names that came, and those among them that came again.
#[derive(Drop)]
pub struct NameCounts {
    pub seen: NameTable,
    pub again: NameTable,
}

impl NameCounts {
    /// No names. It allocates nothing.
    pub fn new(alloc: Global) -> NameCounts
        ensures { result ≡ no_counts }
    {
        NameCounts {
            seen: NameTable::new(alloc),
            again: NameTable::new(alloc),
        }
    }

    /// Counts a name.
    pub fn count(&mut self, name: &Name) -> Result<(), AllocError>
        ensures { OnOk result (self.new ≡ count_name self.old name.now) }
    {
        if !self.seen.add(name.text.as_slice())? {
            self.again.add(name.text.as_slice())?;
        }
        Ok(())
    }

    /// Counts each of the names.
    pub fn count_all(&mut self, names: &[Name]) -> Result<(), AllocError>
        ensures { OnOk result (self.new ≡ count_names self.old names.now) }
    {
        for name in names {
            self.count(name)?;
        }
        Ok(())
    }

    /// Counts the names of inputs in a header.
    pub fn count_inputs(&mut self, inputs: &[UdpInput]) -> Result<(), AllocError>
        ensures { OnOk result (self.new ≡ count_names self.old (map (λ i. i.name) inputs.now)) }
    {
        for input in inputs {
            self.count(&input.name)?;
        }
        Ok(())
    }

    /// Whether a name came.
    pub fn has_come(&self, name: &[u8]) -> bool
        ensures { result ≡ is_among name.now self.now.seen }
    {
        self.seen.contains(name)
    }

    /// Whether a name came once.
    pub fn came_once(&self, name: &[u8]) -> bool
        ensures { result ≡ came_once self.now name.now }
    {
        self.seen.contains(name) && !self.again.contains(name)
    }
}
