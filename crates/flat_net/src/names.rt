ghost use Rattle.std.specs.Prelude.{◌≡◌, map, is_some, IfOk, IfSome};
ghost use Rattle.std.specs.List.{list_all};
ghost use Rattle.name_table.specs.Names.{is_distinct};
ghost use Rattle.flat_net.specs.Tests.{are_names as are_names_of, is_ascii as is_ascii_of};

use crate::parts::Find;
use byte_lists::Bytes;
use name_table::NameTable;
use std::alloc::{AllocError, Global};

/// What has a name.
pub(crate) trait Named {
    ghost use Rattle.std.specs.Prelude.{List, ℕ};

    ghost name: { Self → List ℕ };

    /// The bytes of the name.
    fn name_bytes(&self) -> &[u8]
        ensures { result.now ≡ name self.now };
}

impl Named for Bytes {
    ghost name = { λ bytes. bytes };

    fn name_bytes(&self) -> &[u8] {
        self.as_slice()
    }
}

impl Named for Find {
    ghost name = { λ found. found.name };

    fn name_bytes(&self) -> &[u8] {
        self.name.as_slice()
    }
}

/// A table of the names, or none where two of them are the same.
pub(crate) fn table_of<N: Named>(
    alloc: Global,
    named: &[N],
) -> Result<Option<NameTable>, AllocError>
    ensures distinct { IfOk result (λ o. is_some o ≡ is_distinct (map N.name named.now)) }
    ensures names { IfOk result (λ o. IfSome o (λ table. table ≡ map N.name named.now)) }
{
    let mut table = NameTable::new(alloc);
    for item in named {
        if !table.add(item.name_bytes())? {
            return Ok(None);
        }
    }
    Ok(Some(table))
}

fn is_ascii(name: &[u8]) -> bool
    ensures { result ≡ is_ascii_of name.now }
{
    name.iter().all(|byte| *byte < 128)
}

fn are_ascii<N: Named>(named: &[N]) -> bool
    ensures { result ≡ list_all (λ item. is_ascii_of (N.name item)) named.now }
{
    named.iter().all(|item| is_ascii(item.name_bytes()))
}

/// Whether no two of the names are the same.
fn are_apart<N: Named>(alloc: Global, named: &[N]) -> Result<bool, AllocError>
    ensures { IfOk result (λ apart. apart ≡ is_distinct (map N.name named.now)) }
{
    match table_of(alloc, named)? {
        Some(_) => Ok(true),
        None => Ok(false),
    }
}

/// Whether there are so many ASCII names, no two the same.
pub(crate) fn are_names<N: Named>(
    alloc: Global,
    count: usize,
    named: &[N],
) -> Result<bool, AllocError>
    ensures { IfOk result (λ names. names ≡ are_names_of N.name count named.now) }
{
    Ok(named.len() == count && are_ascii(named) && are_apart(alloc, named)?)
}
