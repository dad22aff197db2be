//! What the header of a primitive and its declarations say of ports.
ghost use Rattle.std.specs.Prelude.{◌≡◌, ◌-◌, length, not};
ghost use Rattle.std.specs.List.{list_any, flat_map};
ghost use Rattle.std.specs.Option.{unwrap_or};
ghost use Rattle.v_tree.specs.declared.locations.Name.{Name as TheName};
ghost use Rattle.primitive_rules.specs.Starts.{start_value};
ghost use Rattle.level_range.specs.declared.range.Logic.TheVariants.{X};
ghost use Rattle.name_table.specs.Names.{same_name};
ghost use Rattle.primitive_rules.specs.Ports.{first_port, header_names, header_regs, item_regs, regs, start_if, header_starts, item_starts, initial_starts, starts};
ghost use Rattle.primitive_rules.specs.Arguments.{first_value, has_reg, is_empty};

use crate::starts::start_value;
use level_range::Logic;
use v_tree::{Lit, Name, UdpDecl, UdpInitial, UdpItem, UdpPorts};

/// Whether the name has this text.
pub fn is_named(text: &[u8], name: &Name) -> bool
    ensures { result ≡ same_name text.now name.now.text }
{
    text == name.text.as_slice()
}

/// The name of the first port.
pub fn first_port(ports: &UdpPorts) -> &[u8]
    ensures { result.now ≡ first_port ports.now }
{
    match ports {
        UdpPorts::Names(names) => match names.as_slice() {
            [first, ..] => first.text.as_slice(),
            [] => &[],
        },
        UdpPorts::Declared { output, .. } => output.text.as_slice(),
    }
}

/// How many ports the header has.
pub fn port_count(ports: &UdpPorts) -> usize
    ensures { result ≡ length (header_names ports.now) }
{
    match ports {
        UdpPorts::Names(names) => names.len(),
        UdpPorts::Declared { inputs, .. } => inputs.as_slice().len() + 1,
    }
}

/// One less than there are ports.
pub fn input_count(ports: &UdpPorts) -> usize
    ensures { result ≡ length (header_names ports.now) - 1 }
{
    port_count(ports).saturating_sub(1)
}

/// Whether the header declares its output as `reg`.
pub fn header_has_reg(ports: &UdpPorts) -> bool
    ensures { result ≡ not (is_empty (header_regs ports.now)) }
{
    match ports {
        UdpPorts::Names(_) => false,
        UdpPorts::Declared { is_reg, .. } => *is_reg,
    }
}

/// Whether a declaration has a `reg`.
pub fn item_has_reg(item: &UdpItem) -> bool
    ensures { result ≡ not (is_empty (item_regs item.now)) }
{
    match item {
        UdpItem::Output { is_reg, .. } => *is_reg,
        UdpItem::Input(_, _) => false,
        UdpItem::Reg(_, _) => true,
    }
}

/// Whether some declaration has a `reg`.
fn items_have_reg(items: &[UdpItem]) -> bool
    ensures { result ≡ list_any (λ item. not (is_empty (item_regs item))) items.now }
{
    items.iter().any(|item| item_has_reg(item))
}

/// Whether some name is declared as `reg`.
pub fn has_reg(udp: &UdpDecl) -> bool
    ensures { result ≡ has_reg udp.now }
{
    header_has_reg(&udp.ports) || items_have_reg(udp.items.as_slice())
}

/// The start value that is written behind a name, x where it isn't right.
fn value_of(literal: &Lit) -> Logic
    ensures { result ≡ unwrap_or (start_value literal.now) X }
{
    start_value(literal).unwrap_or(Logic::X)
}

/// The start value that may be written behind a name.
fn value_if(literal: &Option<Lit>) -> Option<Logic>
    ensures { (name : TheName) → result ≡ first_value (start_if name literal.now) }
{
    match literal {
        Some(literal) => Some(value_of(literal)),
        None => None,
    }
}

/// The start value in the header.
fn header_value(ports: &UdpPorts) -> Option<Logic>
    ensures { result ≡ first_value (header_starts ports.now) }
{
    match ports {
        UdpPorts::Names(_) => None,
        UdpPorts::Declared { start, .. } => value_if(start),
    }
}

/// The start value in a declaration.
fn item_value(item: &UdpItem) -> Option<Logic>
    ensures { result ≡ first_value (item_starts item.now) }
{
    match item {
        UdpItem::Output { start, .. } => value_if(start),
        UdpItem::Input(_, _) | UdpItem::Reg(_, _) => None,
    }
}

/// The first start value in declarations.
fn items_value(items: &[UdpItem]) -> Option<Logic>
    ensures { result ≡ first_value (flat_map item_starts items.now) }
{
    let mut first = None;
    for item in items {
        first = first.or(item_value(item));
    }
    first
}

/// The start value of an `initial`.
fn initial_value(initial: &Option<UdpInitial>) -> Option<Logic>
    ensures { result ≡ first_value (initial_starts initial.now) }
{
    match initial {
        Some(initial) => Some(value_of(&initial.value)),
        None => None,
    }
}

/// The first start value that is written, or x.
pub fn start_of(udp: &UdpDecl) -> Logic
    ensures { result ≡ unwrap_or (first_value (starts udp.now)) X }
{
    header_value(&udp.ports)
        .or(items_value(udp.items.as_slice()))
        .or(initial_value(&udp.initial))
        .unwrap_or(Logic::X)
}
