//! The graph of a file.
ghost use Rattle.std.specs.Prelude.{◌≡◌, IfOk};
ghost use Rattle.module_graph.specs.Graph.{module_names};

use crate::circles::first_circular;
use crate::masters::references_of;
use crate::reach::{ReachedList, reached_from};
use crate::references::{ReferenceList, ReferenceLists};
use crate::top::{first_of, last_root};
use crate::udps::reached_udps;
use crate::unknown::first_unknown;
use byte_lists::{Bytes, NameList};
use std::alloc::{AllocError, Global};
use std::marker::Model;
use v_tree::{Location, Module, ModuleList, UdpDeclList};

/// The names of the modules of a file, and the references of each. Contracts see these two.
#[derive(Debug, Drop)]
pub struct ModuleGraph {
    names: NameList,
    references: ReferenceLists,
    root: Option<usize>,
}

impl Model for ModuleGraph {
    ghost use Rattle.std.specs.Prelude.{◌≡◌};
    ghost use Rattle.module_graph.specs.Graph.{Graph};
    ghost use Rattle.module_graph.specs.Top.{last_root};

    ghost Value = { Graph };

    ghost view = { λ g. record { names = g.names; references = g.references } };

    ghost invariant = { λ g. g.root ≡ last_root g.references };
}

/// Copies of the modules' names.
fn names_of(alloc: Global, modules: &[Module]) -> Result<NameList, AllocError>
    ensures { IfOk result (λ names. names ≡ module_names modules.now) }
{
    let mut names = Vec::new(alloc);
    for module in modules {
        names.push(Bytes::from_vec(Vec::from_slice(alloc, module.name.text.as_slice())?))?;
    }
    Ok(NameList::from_vec(names))
}

impl ModuleGraph {
    ghost use Rattle.std.specs.Option.{option_copied};
    ghost use Rattle.module_graph.specs.Graph.{graph_of};
    ghost use Rattle.module_graph.specs.Reach.{reached_modules, reached_udps};
    ghost use Rattle.module_graph.specs.Rules.{circular_references, unknown_masters};
    ghost use Rattle.module_graph.specs.Top.{top_of};
    ghost use Rattle.rule_places.specs.Places.{first_place};

    /// The graph of a file with these modules and primitives. A name means the first module of that
    /// name, else the first primitive of that name (IEEE 1364-2005, 12.1.2).
    pub fn new(
        alloc: Global,
        modules: &ModuleList,
        udps: &UdpDeclList,
    ) -> Result<ModuleGraph, AllocError>
        ensures { IfOk result (λ graph. graph ≡ graph_of modules.now udps.now) }
    {
        let modules = modules.as_slice();
        let names = names_of(alloc, modules)?;
        let references = references_of(alloc, modules, udps.as_slice())?;
        ModuleGraph::from_lists(alloc, names, references)
    }

    /// The graph with these names of modules, and these references of each.
    pub fn from_lists(
        alloc: Global,
        names: NameList,
        references: ReferenceLists,
    ) -> Result<ModuleGraph, AllocError>
        ensures names { IfOk result (λ graph. graph.names ≡ names) }
        ensures references { IfOk result (λ graph. graph.references ≡ references) }
    {
        let root = last_root(alloc, references.as_slice())?;
        Ok(ModuleGraph {
            names,
            references,
            root,
        })
    }

    /// The names of the modules, in text order.
    pub fn names(&self) -> &[Bytes]
        ensures { result.now ≡ self.now.names }
    {
        self.names.as_slice()
    }

    /// The references of each module.
    pub fn references(&self) -> &[ReferenceList]
        ensures { result.now ≡ self.now.references }
    {
        self.references.as_slice()
    }

    /// The index of the top: the first module of the chosen name, or without a choice the last module in
    /// the text that no module of the file instantiates. None comes where there is no such module.
    pub fn top(&self, choice: Option<&[u8]>) -> Option<usize>
        ensures { result ≡ top_of self.now (option_copied choice.entry) }
    {
        match choice {
            Some(name) => first_of(self.names.as_slice(), name),
            None => self.root,
        }
    }

    /// For each module whether it is the top or the top leads to it, over any number of references.
    pub fn reached(&self, alloc: Global, top: usize) -> Result<ReachedList, AllocError>
        ensures { IfOk result (λ reached. reached ≡ reached_modules self.now.references top) }
    {
        reached_from(alloc, self.references.as_slice(), top)
    }

    /// For each of so many primitives of the file whether a reached module instantiates it.
    pub fn reached_udps(
        &self,
        alloc: Global,
        reached: &[bool],
        count: usize,
    ) -> Result<ReachedList, AllocError>
        ensures { IfOk result (λ list.
            list ≡ reached_udps self.now.references reached.now count) }
    {
        reached_udps(alloc, self.references.as_slice(), reached, count)
    }

    /// The first reference of a reached module to neither a module nor a primitive, None where there is
    /// none.
    pub fn unknown_master(&self, reached: &[bool]) -> Option<Location>
        ensures { result ≡ first_place (unknown_masters self.now reached.now) }
    {
        first_unknown(self.references.as_slice(), reached)
    }

    /// The first reference of a reached module to a module from which that module is reached again, None
    /// where there is none.
    ///
    /// Where no reached module leads to itself, and what is reached is closed under references, it takes
    /// time in proportion to these. Else it may take that for each reference to a module that a circle
    /// leads to, up to the first that leads back.
    pub fn circular_reference(
        &self,
        alloc: Global,
        reached: &[bool],
    ) -> Result<Option<Location>, AllocError>
        ensures { IfOk result (λ place.
            place ≡ first_place (circular_references self.now reached.now)) }
    {
        first_circular(alloc, self.references.as_slice(), reached)
    }
}
