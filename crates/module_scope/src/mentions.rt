//! The mentions of names in a module, with names found by hash.
ghost use Rattle.std.specs.Prelude.{◌≡◌, [], ◌∷◌, ◌++◌, length, IsTrue, not, map, IfOk, OnOk, OnErr};
ghost use Rattle.name_table.specs.Names.{is_among};
ghost use Rattle.module_scope.specs.Mentions.{mention};
ghost use Rattle.module_scope.specs.Occurrences.{occurrence, mentions_at, AreOccurrences};

use crate::roles::Role;
use name_table::NameTable;
use std::alloc::{AllocError, Global};
use std::marker::Model;
use v_tree::{Location, Name};

/// A mention, with the index of its name.
#[derive(Clone, Copy)]
pub struct Occurrence {
    pub name: usize,
    pub location: Location,
    pub role: Role,
}

/// Mentions in their order. Contracts see the list of them.
#[derive(Drop)]
pub struct MentionList {
    names: NameTable,
    occurrences: Vec<Occurrence>,
}

impl Model for MentionList {
    ghost use Rattle.std.specs.Prelude.{List};
    ghost use Rattle.module_scope.specs.Mentions.{Mention};

    ghost Value = { List Mention };

    ghost use Rattle.module_scope.specs.Occurrences.{mentions_at, AreOccurrences};

    ghost view = { λ t. mentions_at t.names t.occurrences.items };

    ghost invariant = { λ t. AreOccurrences t.names t.occurrences.items };
}

/// Adds a mention of a name that was mentioned before.
fn push_again(
    occurrences: &mut Vec<Occurrence>,
    index: usize,
    name: &Name,
    role: Role,
) -> Result<(), AllocError>
    ensures ok { OnOk result (occurrences.new.items
        ≡ occurrences.old.items ++ occurrence index name.now role ∷ []) }
    ensures err { OnErr result (occurrences.new.items ≡ occurrences.old.items) }
{
    occurrences.push(Occurrence {
        name: index,
        location: name.location,
        role,
    })?;
    Ok(())
}

/// Adds a mention of a name that wasn't mentioned before.
fn push_first(
    names: &mut NameTable,
    occurrences: &mut Vec<Occurrence>,
    name: &Name,
    role: Role,
) -> Result<(), AllocError>
    requires { IsTrue (not (is_among name.now.text names.old)) }
    ensures names { OnOk result (names.new ≡ names.old ++ name.now.text ∷ []) }
    ensures occurrences { OnOk result (occurrences.new.items
        ≡ occurrences.old.items ++ occurrence (length names.old) name.now role ∷ []) }
    ensures same_names { OnErr result (names.new ≡ names.old) }
    ensures same_occurrences { OnErr result (occurrences.new.items ≡ occurrences.old.items) }
{
    push_again(occurrences, names.len(), name, role)?;
    match names.add(name.text.as_slice()) {
        Ok(_) => Ok(()),
        Err(error) => {
            occurrences.pop();
            Err(error)
        }
    }
}

impl MentionList {
    /// No mentions. It allocates nothing.
    pub fn new(alloc: Global) -> MentionList
        ensures { result ≡ [] }
    {
        MentionList {
            names: NameTable::new(alloc),
            occurrences: Vec::new(alloc),
        }
    }

    /// Adds a mention.
    pub fn push(&mut self, role: Role, name: &Name) -> Result<(), AllocError>
        ensures { OnOk result (self.new ≡ self.old ++ mention role name.now ∷ []) }
    {
        match self.names.find(name.text.as_slice()) {
            Some(index) => push_again(&mut self.occurrences, index, name, role),
            None => push_first(&mut self.names, &mut self.occurrences, name, role),
        }
    }

    /// The names, each once, in the order of their first mentions, and the mentions by the indices of
    /// their names.
    pub fn into_parts(self) -> (NameTable, Vec<Occurrence>)
        ensures mentions { mentions_at result.0 result.1.items ≡ self }
        ensures names { AreOccurrences result.0 result.1.items }
    {
        let MentionList { names, occurrences } = self;
        (names, occurrences)
    }
}
