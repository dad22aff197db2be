//! Numbers under names, found by hash: the least that was put under each.
ghost use Rattle.std.specs.Prelude.{◌≡◌, ◌<◌, ℕ, List, None, length, OnOk};
ghost use Rattle.module_graph.specs.Numbers.{IsWhole, least_under, lesser, with_number, number_if};

use name_table::NameTable;
use sqlite_items::Items;
use std::alloc::{AllocError, Global};

/// The least number under each name.
#[derive(Drop)]
pub(crate) struct NumberTable {
    names: NameTable,
    numbers: Items<usize>,
}

impl NumberTable {
    /// A table with nothing under any name.
    pub(crate) fn new(alloc: Global) -> NumberTable
        ensures whole { IsWhole result }
        ensures empty { (name : List ℕ) → least_under name result ≡ None }
    {
        NumberTable {
            names: NameTable::new(alloc),
            numbers: Items::new(alloc),
        }
    }

    /// The least number under a name.
    pub(crate) fn least(&self, name: &[u8]) -> Option<usize>
        ensures { result ≡ least_under name.now self.now }
    {
        let index = self.names.find(name)?;
        self.numbers.get(index).copied()
    }

    /// Puts a number under a name.
    pub(crate) fn put(&mut self, name: &[u8], number: usize) -> Result<(), AllocError>
        requires { IsWhole self.old }
        ensures whole { OnOk result (IsWhole self.new) }
        ensures numbers { OnOk result ((other : List ℕ) →
            least_under other self.new
            ≡ lesser (least_under other self.old) (number_if other name.now number)) }
    {
        match self.names.find(name) {
            Some(index) => lower(&mut self.numbers, index, number),
            None => {
                self.names.add(name)?;
                self.numbers.push(number)?;
            }
        }
        Ok(())
    }
}

/// Puts a number at an index, where it is less than the one there.
fn lower(numbers: &mut Items<usize>, index: usize, number: usize)
    requires { index < length numbers.old }
    ensures { numbers.new ≡ with_number numbers.old index number }
{
    let old = numbers.as_slice()[index];
    numbers.set(index, if number < old { number } else { old });
}
