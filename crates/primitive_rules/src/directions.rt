//! The directions of ports, and the outputs among them.
ghost use Rattle.std.specs.Prelude.{◌≡◌, ◌&&◌, not, IfOk, OnOk};
ghost use Rattle.std.specs.List.{list_any, flat_map};
ghost use Rattle.name_table.specs.Names.{same_name, is_among};
ghost use Rattle.primitive_rules.specs.Ports.{header_names, header_directions, item_directions, directions, header_outputs, item_outputs};
ghost use Rattle.primitive_rules.specs.Counting.{came_once, count_names, no_counts};
ghost use Rattle.primitive_rules.specs.Headers.{breaks_directions, breaks_first, breaks_others};

use crate::counts::NameCounts;
use crate::ports::{first_port, is_named};
use std::alloc::{AllocError, Global};
use v_tree::{Name, UdpDecl, UdpInput, UdpItem, UdpPorts};

/// Counts the names that a declaration gives a direction.
fn count_item(counts: &mut NameCounts, item: &UdpItem) -> Result<(), AllocError>
    ensures { OnOk result (counts.new ≡ count_names counts.old (item_directions item.now)) }
{
    match item {
        UdpItem::Output { name, .. } => counts.count(name),
        UdpItem::Input(_, names) => counts.count_all(names.as_slice()),
        UdpItem::Reg(_, _) => Ok(()),
    }
}

/// Counts the names that declarations give a direction.
fn count_items(counts: &mut NameCounts, items: &[UdpItem]) -> Result<(), AllocError>
    ensures { OnOk result (counts.new ≡ count_names counts.old (flat_map item_directions items.now)) }
{
    for item in items {
        count_item(counts, item)?;
    }
    Ok(())
}

/// Counts the names that the header gives a direction.
fn count_directions(counts: &mut NameCounts, ports: &UdpPorts) -> Result<(), AllocError>
    ensures { OnOk result (counts.new ≡ count_names counts.old (header_directions ports.now)) }
{
    match ports {
        UdpPorts::Names(_) => Ok(()),
        UdpPorts::Declared { output, inputs, .. } => {
            counts.count(output)?;
            counts.count_inputs(inputs.as_slice())
        }
    }
}

/// Counts the names of the header.
fn count_header(counts: &mut NameCounts, ports: &UdpPorts) -> Result<(), AllocError>
    ensures { OnOk result (counts.new ≡ count_names counts.old (header_names ports.now)) }
{
    match ports {
        UdpPorts::Names(names) => counts.count_all(names.as_slice()),
        UdpPorts::Declared { output, inputs, .. } => {
            counts.count(output)?;
            counts.count_inputs(inputs.as_slice())
        }
    }
}

/// The names behind directions, counted.
fn direction_counts(alloc: Global, udp: &UdpDecl) -> Result<NameCounts, AllocError>
    ensures { IfOk result (λ counts. counts ≡ count_names no_counts (directions udp.now)) }
{
    let mut counts = NameCounts::new(alloc);
    count_directions(&mut counts, &udp.ports)?;
    count_items(&mut counts, udp.items.as_slice())?;
    Ok(counts)
}

/// Whether some name didn't come once.
fn is_any_not_once(counts: &NameCounts, names: &[Name]) -> bool
    ensures { result ≡ list_any (λ port. not (came_once counts.now port.text)) names.now }
{
    names
        .iter()
        .any(|port| !counts.came_once(port.text.as_slice()))
}

/// Whether some name of an input in a header didn't come once.
fn is_any_input_not_once(counts: &NameCounts, inputs: &[UdpInput]) -> bool
    ensures { result ≡ list_any (λ i. not (came_once counts.now i.name.text)) inputs.now }
{
    inputs
        .iter()
        .any(|input| !counts.came_once(input.name.text.as_slice()))
}

/// Whether some port didn't come once.
fn is_any_port_not_once(counts: &NameCounts, ports: &UdpPorts) -> bool
    ensures { result ≡ list_any (λ port. not (came_once counts.now port.text))
        (header_names ports.now) }
{
    match ports {
        UdpPorts::Names(names) => is_any_not_once(counts, names.as_slice()),
        UdpPorts::Declared { output, inputs, .. } => {
            !counts.came_once(output.text.as_slice())
                || is_any_input_not_once(counts, inputs.as_slice())
        }
    }
}

/// Whether a port of the header has no direction, or several.
pub fn breaks_directions(alloc: Global, udp: &UdpDecl) -> Result<bool, AllocError>
    ensures { IfOk result (λ broken. broken ≡ breaks_directions udp.now) }
{
    let counts = direction_counts(alloc, udp)?;
    Ok(is_any_port_not_once(&counts, &udp.ports))
}

/// Whether the header declares an output of this name.
fn header_has_output(text: &[u8], ports: &UdpPorts) -> bool
    ensures { result ≡ list_any (λ name. same_name text.now name.text) (header_outputs ports.now) }
{
    match ports {
        UdpPorts::Names(_) => false,
        UdpPorts::Declared { output, .. } => is_named(text, output),
    }
}

/// Whether a declaration is that of an output of this name.
fn item_has_output(text: &[u8], item: &UdpItem) -> bool
    ensures { result ≡ list_any (λ name. same_name text.now name.text) (item_outputs item.now) }
{
    match item {
        UdpItem::Output { name, .. } => is_named(text, name),
        UdpItem::Input(_, _) | UdpItem::Reg(_, _) => false,
    }
}

/// Whether some declaration is that of an output of this name.
fn items_have_output(text: &[u8], items: &[UdpItem]) -> bool
    ensures { result ≡ list_any
        (λ item. list_any (λ name. same_name text.now name.text) (item_outputs item)) items.now }
{
    items.iter().any(|item| item_has_output(text, item))
}

/// Whether the first port isn't an output.
pub fn breaks_first(udp: &UdpDecl) -> bool
    ensures { result ≡ breaks_first udp.now }
{
    let first = first_port(&udp.ports);
    !header_has_output(first, &udp.ports) && !items_have_output(first, udp.items.as_slice())
}

/// Whether the name is that of a port, but not of the first.
fn is_other_port(first: &[u8], ports: &NameCounts, name: &Name) -> bool
    ensures { result ≡ (not (same_name first.now name.now.text)
        && is_among name.now.text ports.now.seen) }
{
    !is_named(first, name) && ports.has_come(name.text.as_slice())
}

/// Whether the header declares another port as an output.
fn header_has_other(first: &[u8], counts: &NameCounts, ports: &UdpPorts) -> bool
    ensures { result ≡ list_any (λ name. not (same_name first.now name.text)
        && is_among name.text counts.now.seen) (header_outputs ports.now) }
{
    match ports {
        UdpPorts::Names(_) => false,
        UdpPorts::Declared { output, .. } => is_other_port(first, counts, output),
    }
}

/// Whether a declaration is that of another port as an output.
fn item_has_other(first: &[u8], counts: &NameCounts, item: &UdpItem) -> bool
    ensures { result ≡ list_any (λ name. not (same_name first.now name.text)
        && is_among name.text counts.now.seen) (item_outputs item.now) }
{
    match item {
        UdpItem::Output { name, .. } => is_other_port(first, counts, name),
        UdpItem::Input(_, _) | UdpItem::Reg(_, _) => false,
    }
}

/// Whether some declaration is that of another port as an output.
fn items_have_other(first: &[u8], counts: &NameCounts, items: &[UdpItem]) -> bool
    ensures { result ≡ list_any (λ item. list_any (λ name. not (same_name first.now name.text)
        && is_among name.text counts.now.seen) (item_outputs item)) items.now }
{
    items.iter().any(|item| item_has_other(first, counts, item))
}

/// Whether another port than the first is an output.
pub fn breaks_others(alloc: Global, udp: &UdpDecl) -> Result<bool, AllocError>
    ensures { IfOk result (λ broken. broken ≡ breaks_others udp.now) }
{
    let first = first_port(&udp.ports);
    let mut counts = NameCounts::new(alloc);
    count_header(&mut counts, &udp.ports)?;
    Ok(
        header_has_other(first, &counts, &udp.ports)
            || items_have_other(first, &counts, udp.items.as_slice()),
    )
}
