//! The widths of ports.
ghost use Rattle.std.specs.Prelude.{◌≡◌, IfOk};
ghost use Rattle.plan_counts.specs.PortWidths.{port_widths};

use item_parts::net_width;
use list_of::ListOf;
use module_ports::PortTable;
use std::alloc::{AllocError, Global};

/// The widths of a module's ports in bits, in the order of its header.
pub type WidthList = ListOf<u64>;

/// The widths of the ports of a module, at most 2^32 bits each. A port whose name has no net counts
/// as a scalar.
pub fn port_widths(alloc: Global, table: &PortTable) -> Result<WidthList, AllocError>
    ensures { IfOk result (λ widths. widths ≡ port_widths table.now) }
{
    let mut widths = Vec::new(alloc);
    for index in 0..table.len() {
        widths.push(net_width(table.net_at(index)))?;
    }
    Ok(WidthList::from_vec(widths))
}
