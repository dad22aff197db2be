//! The rules on items, over the modules that are reached.
ghost use Rattle.std.specs.Prelude.{◌≡◌, length, map, IfOk};
ghost use Rattle.module_graph.specs.Graph.{graph_of};
ghost use Rattle.netlist_scopes.specs.Reached.{scope_under};
ghost use Rattle.netlist_rules.specs.Items.{item_places, port_counts, port_tables};
ghost use Rattle.instance_rules.specs.Walks.{no_places};
ghost use Rattle.netlist_rules.specs.Walks.{with_modules};

use crate::items::module_places;
use instance_rules::{ItemPlaces, earliest_places, no_places};
use module_ports::PortTable;
use netlist_scopes::Scopes;
use std::alloc::{AllocError, Global};
use v_tree::File;

/// The first place of each rule in the modules of a file that are reached.
pub fn item_places(
    alloc: Global,
    file: &File,
    scopes: &Scopes,
    tables: &[PortTable],
    counts: &[usize],
) -> Result<ItemPlaces, AllocError>
    requires scopes { scopes.now.scopes ≡ map (scope_under file.now.directives) file.now.modules }
    requires graph { scopes.now.graph ≡ graph_of file.now.modules file.now.udps }
    requires reached { length scopes.now.reached ≡ length file.now.modules }
    requires tables { tables.now ≡ port_tables file.now.directives file.now.modules }
    requires counts { counts.now ≡ port_counts file.now.udps }
    ensures { IfOk result (λ places. places ≡ item_places file.now scopes.now.reached) }
{
    let modules = file.modules.as_slice();
    let parts = scopes.scopes.as_slice();
    let references = scopes.graph.references();
    let reached = scopes.reached.as_slice();
    let mut places = no_places();
    for i in 0..modules.len() {
        if !reached[i] {
            continue;
        }
        let list = references[i].as_slice();
        let more = module_places(alloc, &parts[i], &modules[i], list, tables, counts)?;
        places = earliest_places(places, more);
    }
    Ok(places)
}
