//! The scopes of a file under a choice of its top.
ghost use Rattle.std.specs.Prelude.{◌≡◌, ◌≤◌, length, map, replicate, IfOk, false};
ghost use Rattle.std.specs.Option.{option_copied};
ghost use Rattle.rule_places.specs.Places.{first_place};
ghost use Rattle.module_directives.specs.InForce.{settings_at};
ghost use Rattle.netlist_scopes.specs.Reached.{scope_under, name_places};
ghost use Rattle.netlist_scopes.specs.Rules.{broken_rule};
ghost use Rattle.netlist_scopes.specs.Scopes.{absent_tops, reached_from, netlist_places, scopes_with, scopes_of};

use crate::places::NetlistPlaces;
use crate::reached::places_among;
use crate::rules::BrokenRule;
use module_directives::{Settings, SettingsList, coarse_precision, settings_of};
use module_graph::{ModuleGraph, ReachedList, repeated_name};
use module_scope::{Scope, ScopePlaces};
use sqlite_items::Items;
use std::alloc::{AllocError, Global};
use v_tree::{Directive, File, Location, Module};

/// Scopes, one for each module.
pub type ScopeList = Items<Scope>;

/// What a netlist text declares and uses under a choice of its top.
#[derive(Drop)]
pub struct Scopes {
    /// What its modules instantiate.
    pub graph: ModuleGraph,
    /// The index of the top among the modules, None where there is no top.
    pub top: Option<usize>,
    /// For each module whether it is the top or reached by it.
    pub reached: ReachedList,
    /// For each module what directives leave in force.
    pub settings: SettingsList,
    /// For each module its names and nets.
    pub scopes: ScopeList,
    /// The first place of each rule, where it is broken.
    pub places: NetlistPlaces,
}

/// The place of a netlist without a top, the beginning of the text.
fn absent_top(top: Option<usize>) -> Option<Location>
    ensures { result ≡ first_place (absent_tops top) }
{
    match top {
        Some(_) => None,
        None => Some(Location { line: 1, token: 0 }),
    }
}

/// For none of so many modules.
fn none_reached(alloc: Global, count: usize) -> Result<ReachedList, AllocError>
    ensures { IfOk result (λ reached. reached ≡ replicate count false) }
{
    Ok(Items::from_vec(vec![in alloc; false; count]?))
}

/// For each module whether the top reaches it.
fn reached_from(
    alloc: Global,
    graph: &ModuleGraph,
    top: Option<usize>,
) -> Result<ReachedList, AllocError>
    ensures { IfOk result (λ reached. reached ≡ reached_from graph.now top) }
{
    match top {
        Some(top) => graph.reached(alloc, top),
        None => none_reached(alloc, graph.references().len()),
    }
}

/// The scope of each module under its settings.
fn module_scopes(
    alloc: Global,
    directives: &[Directive],
    modules: &[Module],
    settings: &[Settings],
) -> Result<ScopeList, AllocError>
    requires { settings.now ≡ map (λ m. settings_at directives.now m.location) modules.now }
    ensures { IfOk result (λ scopes. scopes ≡ map (scope_under directives.now) modules.now) }
{
    let mut scopes = Items::new(alloc);
    for i in 0..modules.len() {
        scopes.push(Scope::new(alloc, &modules[i], settings[i].implicit_type)?)?;
    }
    Ok(scopes)
}

/// For each module its settings and its scope, and the first place of each rule on names over the
/// modules that are reached.
fn scopes_and_places(
    alloc: Global,
    directives: &[Directive],
    modules: &[Module],
    reached: &[bool],
) -> Result<(SettingsList, ScopeList, ScopePlaces), AllocError>
    requires { length reached.now ≡ length modules.now }
    ensures settings { IfOk result (λ parts.
        parts.0 ≡ map (λ m. settings_at directives.now m.location) modules.now) }
    ensures scopes { IfOk result (λ parts. parts.1 ≡ map (scope_under directives.now) modules.now) }
    ensures places { IfOk result (λ parts.
        parts.2 ≡ name_places directives.now reached.now modules.now) }
{
    let settings = settings_of(alloc, modules, directives)?;
    let scopes = module_scopes(alloc, directives, modules, settings.as_slice())?;
    let places = places_among(reached, scopes.as_slice());
    Ok((settings, scopes, places))
}

/// The first place of each rule, given those of the rules on names.
fn netlist_places(
    alloc: Global,
    file: &File,
    graph: &ModuleGraph,
    top: Option<usize>,
    reached: &[bool],
    names: ScopePlaces,
) -> Result<NetlistPlaces, AllocError>
    requires { names ≡ name_places file.now.directives reached.now file.now.modules }
    ensures { IfOk result (λ places. places
        ≡ netlist_places file.now graph.now top reached.now) }
{
    Ok(NetlistPlaces {
        repeated_names: repeated_name(alloc, &file.modules, &file.udps)?,
        absent_top: absent_top(top),
        unknown_masters: graph.unknown_master(reached),
        circular_references: graph.circular_reference(alloc, reached)?,
        ports: names.ports,
        repeated: names.repeated,
        undeclared: names.undeclared,
        selects: names.selects,
        ranges: names.ranges,
        coarse_precisions: coarse_precision(file.directives.as_slice()),
        implicit: names.implicit,
    })
}

/// The scopes, given the graph, the top and the modules that it reaches.
fn scopes_with(
    alloc: Global,
    file: &File,
    graph: ModuleGraph,
    top: Option<usize>,
    reached: ReachedList,
) -> Result<Scopes, AllocError>
    requires { length reached ≡ length file.now.modules }
    ensures { IfOk result (λ scopes. scopes
        ≡ scopes_with file.now graph top reached) }
{
    let (modules, directives) = (file.modules.as_slice(), file.directives.as_slice());
    let (settings, scopes, names) = scopes_and_places(
        alloc,
        directives,
        modules,
        reached.as_slice(),
    )?;
    let places = netlist_places(alloc, file, &graph, top, reached.as_slice(), names)?;
    Ok(Scopes {
        graph,
        top,
        reached,
        settings,
        scopes,
        places,
    })
}

impl Scopes {
    /// The scopes of a file under a choice of its top, by the top's name as a module has it; without
    /// a choice the top is the last module in the text that no module instantiates.
    pub fn new(alloc: Global, file: &File, choice: Option<&[u8]>) -> Result<Scopes, AllocError>
        ensures { IfOk result (λ scopes. scopes
            ≡ scopes_of file.now (option_copied choice.entry)) }
    {
        let graph = ModuleGraph::new(alloc, &file.modules, &file.udps)?;
        let top = graph.top(choice);
        let reached = reached_from(alloc, &graph, top)?;
        scopes_with(alloc, file, graph, top, reached)
    }

    /// The first place of each rule, where it is broken.
    pub fn places(&self) -> NetlistPlaces
        ensures { result ≡ self.now.places }
    {
        self.places
    }

    /// The broken rule with the lowest number, with the line of its first place. None comes exactly
    /// where no rule is broken.
    pub fn broken_rule(&self) -> Option<BrokenRule>
        ensures { result ≡ broken_rule self.now.places }
    {
        self.places.broken_rule()
    }
}
