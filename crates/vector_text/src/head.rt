ghost use Rattle.std.specs.Prelude.{◌≡◌, IfOk};
ghost use Rattle.line_text.specs.Fields.{fields_of};
ghost use Rattle.line_text.specs.Names.{names_of};
ghost use Rattle.vector_text.specs.Sayings.{version_named, version_of, listed_behind};

use crate::said::Version;
use byte_lists::NameList;
use line_text::{names_in, two_fields};
use std::alloc::{AllocError, Global};

fn version_named(field: &[u8]) -> Option<Version>
    ensures { result ≡ version_named field.now }
{
    if field == b"1".as_slice() {
        Some(Version::First)
    } else if field == b"2".as_slice() {
        Some(Version::Second)
    } else {
        None
    }
}

/// The version that a first line names.
#[tactic(auto, unfolding(crate::specs::Sayings::version_of))]
pub fn version_in(line: &[u8]) -> Option<Version>
    ensures { result ≡ version_of (fields_of line.now) }
{
    let (word, version) = two_fields(line)?;
    if word == b"vectors".as_slice() {
        version_named(version)
    } else {
        None
    }
}

/// The names behind the word with which a line begins, where there are one or more.
#[tactic(auto, unfolding(crate::specs::Sayings::listed_behind))]
pub fn listed_in(alloc: Global, word: &[u8], line: &[u8]) -> Result<Option<NameList>, AllocError>
    ensures { IfOk result (λ names. names ≡ listed_behind word.now (names_of line.now)) }
{
    let mut names = names_in(alloc, line)?.into_vec();
    if names.len() < 2 || names[0].as_slice() != word {
        return Ok(None);
    }
    let _ = names.remove(0);
    Ok(Some(NameList::from_vec(names)))
}
