//! What a module declares, and the first places of the rules on its names.
ghost use Rattle.std.specs.Prelude.{◌≡◌, ℕ, List, IfOk};
ghost use Rattle.module_scope.specs.Mentions.{mentions_in, roles_of};
ghost use Rattle.module_scope.specs.Nets.{net_of};
ghost use Rattle.module_scope.specs.Scopes.{scope_of, scope_with, scope_net};

use crate::items::mentions_in;
use crate::mentions::MentionList;
use crate::nets::{ScopeNet, nets_of};
use crate::places::{ScopePlaces, first_places};
use crate::summaries::summaries_of;
use name_table::NameTable;
use sqlite_items::Items;
use std::alloc::{AllocError, Global};
use v_tree::{ImplicitNetType, Module};

/// The scope of a module: the names that it mentions, in the order of their first mentions, the net of
/// each name that has one, and the first places of the rules on them.
#[derive(Drop)]
pub struct Scope {
    pub names: NameTable,
    pub nets: Items<Option<ScopeNet>>,
    pub places: ScopePlaces,
}

/// The scope of mentions.
pub fn scope_with(
    alloc: Global,
    default: Option<ImplicitNetType>,
    mentions: MentionList,
) -> Result<Scope, AllocError>
    ensures { IfOk result (λ scope. scope ≡ scope_with default mentions) }
{
    let (names, occurrences) = mentions.into_parts();
    let all = summaries_of(alloc, names.len(), occurrences.as_slice())?;
    let nets = nets_of(alloc, default, all.as_slice())?;
    let makes = default.is_some();
    let places = first_places(alloc, makes, all.as_slice(), occurrences.as_slice())?;
    Ok(Scope {
        names,
        nets: Items::from_vec(nets),
        places,
    })
}

impl Scope {
    /// The scope of a module, where `default` is the type of implicit nets; with none no implicit nets
    /// are made.
    pub fn new(
        alloc: Global,
        module: &Module,
        default: Option<ImplicitNetType>,
    ) -> Result<Scope, AllocError>
        ensures scope { IfOk result (λ scope. scope ≡ scope_of default «module».now) }
        ensures nets { IfOk result (λ scope. (name : List ℕ) → scope_net scope name
            ≡ net_of default (roles_of name (mentions_in «module».now))) }
    {
        let mentions = mentions_in(alloc, module)?;
        scope_with(alloc, default, mentions)
    }

    /// The net of a name, where it has one.
    pub fn net_of(&self, name: &[u8]) -> Option<ScopeNet>
        ensures { result ≡ scope_net self.now name.now }
    {
        match self.names.find(name) {
            Some(index) => match self.nets.get(index) {
                Some(net) => *net,
                None => None,
            },
            None => None,
        }
    }

    /// The first place of each rule, where it is broken.
    pub fn places(&self) -> ScopePlaces
        ensures { result ≡ self.now.places }
    {
        self.places
    }
}
