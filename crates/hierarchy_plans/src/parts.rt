//! The parts of modules that are reached.
ghost use Rattle.std.specs.Prelude.{◌≡◌, ℕ, List, [], length, map, IfOk, if◌then◌else◌};
ghost use Rattle.module_graph.specs.Graph.{references_in};
ghost use Rattle.module_graph.specs.declared.references.Master.{Master as MasterValue};
ghost use Rattle.module_parts.specs.Parts.{module_parts};
ghost use Rattle.netlist_scopes.specs.Reached.{scope_under};
ghost use Rattle.netlist_rules.specs.Items.{port_tables};
ghost use Rattle.netlist_meaning.specs.Plans.{graph_in};
ghost use Rattle.hierarchy_plans.specs.Lists.{part_lists};

use module_graph::Reference;
use module_parts::{PartList, module_parts};
use module_ports::PortTable;
use module_scope::Scope;
use netlist_rules::Rules;
use sqlite_items::Items;
use std::alloc::{AllocError, Global};
use v_tree::{File, Module};

/// Parts, a list for each module.
pub type PartLists = Items<PartList>;

/// The parts of a module under its scope, none where it isn't reached.
fn parts_if(
    alloc: Global,
    is_reached: bool,
    scope: &Scope,
    module: &Module,
    references: &[Reference],
    tables: &[PortTable],
) -> Result<PartList, AllocError>
    ensures { IfOk result (λ parts. (of : List ℕ → MasterValue) →
        references.now ≡ references_in of «module».now.items → parts
        ≡ (if is_reached then module_parts scope.now tables.now of «module».now else [])) }
{
    if is_reached {
        module_parts(alloc, scope, module, references, tables)
    } else {
        Ok(Items::new(alloc))
    }
}

/// The parts of each module of a file, by the rules on it; one that isn't reached has none.
pub fn part_lists(alloc: Global, file: &File, rules: &Rules) -> Result<PartLists, AllocError>
    requires graph { rules.now.scopes.graph ≡ graph_in file.now }
    requires scopes { rules.now.scopes.scopes
        ≡ map (scope_under file.now.directives) file.now.modules }
    requires reached { length rules.now.scopes.reached ≡ length file.now.modules }
    requires tables { rules.now.tables ≡ port_tables file.now.directives file.now.modules }
    ensures { IfOk result (λ lists. lists ≡ part_lists file.now rules.now.scopes.reached) }
{
    let modules = file.modules.as_slice();
    let scopes = rules.scopes.scopes.as_slice();
    let references = rules.scopes.graph.references();
    let reached = rules.scopes.reached.as_slice();
    let tables = rules.tables.as_slice();
    let mut lists = Items::new(alloc);
    for i in 0..modules.len() {
        let list = references[i].as_slice();
        let parts = parts_if(alloc, reached[i], &scopes[i], &modules[i], list, tables)?;
        lists.push(parts)?;
    }
    Ok(lists)
}
