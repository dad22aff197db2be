//! Which bits of an instance's module are connected to which nets outside.
ghost use Rattle.std.specs.Prelude.{◌≡◌, ◌++◌, IfOk, OnOk};
ghost use Rattle.std.specs.List.{zip};
ghost use Rattle.netlist_plan.specs.Flattening.{bound_numbers, numbers_of, port_numbers};

use crate::elements::numbers_of;
use netlist_plan::PortBits;
use std::alloc::{AllocError, Global};

/// Adds pairs of what stands at the same index in two lists.
fn push_pairs(pairs: &mut Vec<(u32, u32)>, first: &[u32], second: &[u32]) -> Result<(), AllocError>
    ensures { OnOk result (pairs.new.items ≡ pairs.old.items ++ zip first.now second.now) }
{
    for index in 0..first.len().min(second.len()) {
        pairs.push((first[index], second[index]))?;
    }
    Ok(())
}

/// Adds the bits of a port that are connected, with the numbers of the nets outside.
fn push_port_numbers(
    alloc: Global,
    numbers: &[u32],
    ports: &[PortBits],
    connection: &PortBits,
    outside: &mut Vec<(u32, u32)>,
) -> Result<(), AllocError>
    ensures { OnOk result (outside.new.items
        ≡ outside.old.items ++ port_numbers numbers.now ports.now connection.now) }
{
    match ports.get(connection.port) {
        Some(port) => {
            let outer = numbers_of(alloc, numbers, connection.bits.as_slice())?;
            push_pairs(outside, port.bits.as_slice(), outer.as_slice())
        }
        None => Ok(()),
    }
}

/// The bits of an instance's module that are connected, with the numbers of the nets outside.
pub fn bound_numbers(
    alloc: Global,
    numbers: &[u32],
    ports: &[PortBits],
    connections: &[PortBits],
) -> Result<Vec<(u32, u32)>, AllocError>
    ensures { IfOk result (λ outside. outside.items
        ≡ bound_numbers numbers.now ports.now connections.now) }
{
    let mut outside = Vec::new(alloc);
    for connection in connections {
        push_port_numbers(alloc, numbers, ports, connection, &mut outside)?;
    }
    Ok(outside)
}
