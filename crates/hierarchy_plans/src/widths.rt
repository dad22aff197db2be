//! The widths of the ports of modules that are reached.
ghost use Rattle.std.specs.Prelude.{◌≡◌, [], length, IfOk, if◌then◌else◌};
ghost use Rattle.netlist_rules.specs.Items.{port_tables};
ghost use Rattle.plan_counts.specs.PortWidths.{port_widths};
ghost use Rattle.hierarchy_plans.specs.Lists.{width_lists};

use list_of::ListOf;
use module_ports::PortTable;
use netlist_rules::Rules;
use plan_counts::{WidthList, port_widths};
use sqlite_items::Items;
use std::alloc::{AllocError, Global};
use v_tree::File;

/// Widths of ports in bits, a list for each module.
pub type WidthLists = Items<WidthList>;

/// The widths of the ports of a module, none where it isn't reached.
fn widths_if(alloc: Global, is_reached: bool, table: &PortTable) -> Result<WidthList, AllocError>
    ensures { IfOk result
        (λ widths. widths ≡ (if is_reached then port_widths table.now else [])) }
{
    if is_reached {
        port_widths(alloc, table)
    } else {
        Ok(ListOf::from_vec(Vec::new(alloc)))
    }
}

/// The widths of the ports of each module of a file, by the rules on it; one that isn't reached has none.
pub fn width_lists(alloc: Global, file: &File, rules: &Rules) -> Result<WidthLists, AllocError>
    requires reached { length rules.now.scopes.reached ≡ length file.now.modules }
    requires tables { rules.now.tables ≡ port_tables file.now.directives file.now.modules }
    ensures { IfOk result (λ lists. lists ≡ width_lists file.now rules.now.scopes.reached) }
{
    let reached = rules.scopes.reached.as_slice();
    let tables = rules.tables.as_slice();
    let mut lists = Items::new(alloc);
    for i in 0..file.modules.as_slice().len() {
        lists.push(widths_if(alloc, reached[i], &tables[i])?)?;
    }
    Ok(lists)
}
