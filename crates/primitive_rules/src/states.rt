//! The `reg` and the `initial` of primitives.
ghost use Rattle.std.specs.Prelude.{◌≡◌, ◌≤◌, length, nat_lt, not, if◌then◌else◌};
ghost use Rattle.std.specs.List.{list_any, count_by};
ghost use Rattle.name_table.specs.Names.{same_name};
ghost use Rattle.primitive_rules.specs.Arguments.{is_empty};
ghost use Rattle.primitive_rules.specs.Ports.{Start, first_port, name_if, header_regs, item_regs, regs, header_starts, item_starts, initial_starts, start_if, starts};
ghost use Rattle.primitive_rules.specs.Headers.{breaks_regs, breaks_starts, is_wrong_start, names_first};

use crate::ports::{first_port, header_has_reg, is_named, item_has_reg};
use crate::starts::start_value;
use v_tree::{Lit, Name, UdpDecl, UdpInitial, UdpItem, UdpPorts};

/// Whether a name that may be there has another text.
fn is_other(text: &[u8], is_there: bool, name: &Name) -> bool
    ensures { result ≡ list_any (λ other. not (same_name text.now other.text))
        (name_if is_there name.now) }
{
    is_there && !is_named(text, name)
}

/// Whether the header has a `reg` of another name.
fn header_has_other_reg(first: &[u8], ports: &UdpPorts) -> bool
    ensures { result ≡ list_any (λ name. not (same_name first.now name.text))
        (header_regs ports.now) }
{
    match ports {
        UdpPorts::Names(_) => false,
        UdpPorts::Declared { is_reg, output, .. } => is_other(first, *is_reg, output),
    }
}

/// Whether a declaration has a `reg` of another name.
fn item_has_other_reg(first: &[u8], item: &UdpItem) -> bool
    ensures { result ≡ list_any (λ name. not (same_name first.now name.text)) (item_regs item.now) }
{
    match item {
        UdpItem::Output { is_reg, name, .. } => is_other(first, *is_reg, name),
        UdpItem::Input(_, _) => false,
        UdpItem::Reg(_, name) => is_other(first, true, name),
    }
}

/// Whether some declaration has a `reg` of another name.
fn items_have_other_reg(first: &[u8], items: &[UdpItem]) -> bool
    ensures { result ≡ list_any (λ item. list_any (λ name. not (same_name first.now name.text))
        (item_regs item)) items.now }
{
    items.iter().any(|item| item_has_other_reg(first, item))
}

/// How many declarations have a `reg`.
fn count_regs(items: &[UdpItem]) -> usize
    ensures count { result ≡ count_by (λ item. not (is_empty (item_regs item))) items.now }
    ensures bound { result ≤ length items.now }
{
    items.iter().filter(|item| item_has_reg(item)).count()
}

/// 1 where the test holds, else 0.
fn one_if(holds: bool) -> usize
    ensures { result ≡ (if holds then 1 else 0) }
{
    if holds { 1 } else { 0 }
}

/// Whether there are several `reg`.
fn has_several_regs(udp: &UdpDecl) -> bool
    ensures { result ≡ nat_lt 1 (length (regs udp.now)) }
{
    let header = one_if(header_has_reg(&udp.ports));
    count_regs(udp.items.as_slice()) + header > 1
}

/// Whether some `reg` is of another name than the first port.
fn has_other_reg(udp: &UdpDecl) -> bool
    ensures { result ≡ list_any (λ name. not (names_first udp.now name)) (regs udp.now) }
{
    let first = first_port(&udp.ports);
    header_has_other_reg(first, &udp.ports) || items_have_other_reg(first, udp.items.as_slice())
}

/// Whether a `reg` is of another name than the first port, or stands twice.
pub fn breaks_regs(udp: &UdpDecl) -> bool
    ensures { result ≡ breaks_regs udp.now }
{
    has_other_reg(udp) || has_several_regs(udp)
}

/// Whether an `initial` is of another name, or its literal is no start value.
fn is_wrong_start(first: &[u8], name: &Name, value: &Lit) -> bool
    ensures { result ≡ is_wrong_start first.now (record { name = name.now; value = value.now }) }
{
    !is_named(first, name) || start_value(value).is_none()
}

/// The same, where the literal may be there.
fn is_wrong_start_if(first: &[u8], name: &Name, value: &Option<Lit>) -> bool
    ensures { result ≡ list_any (is_wrong_start first.now) (start_if name.now value.now) }
{
    match value {
        Some(value) => is_wrong_start(first, name, value),
        None => false,
    }
}

/// Whether the header has such a start value.
fn header_has_wrong_start(first: &[u8], ports: &UdpPorts) -> bool
    ensures { result ≡ list_any (is_wrong_start first.now) (header_starts ports.now) }
{
    match ports {
        UdpPorts::Names(_) => false,
        UdpPorts::Declared { output, start, .. } => is_wrong_start_if(first, output, start),
    }
}

/// Whether a declaration has such a start value.
fn item_has_wrong_start(first: &[u8], item: &UdpItem) -> bool
    ensures { result ≡ list_any (is_wrong_start first.now) (item_starts item.now) }
{
    match item {
        UdpItem::Output { name, start, .. } => is_wrong_start_if(first, name, start),
        UdpItem::Input(_, _) | UdpItem::Reg(_, _) => false,
    }
}

/// Whether some declaration has such a start value.
fn items_have_wrong_start(first: &[u8], items: &[UdpItem]) -> bool
    ensures { result ≡ list_any
        (λ item. list_any (is_wrong_start first.now) (item_starts item)) items.now }
{
    items.iter().any(|item| item_has_wrong_start(first, item))
}

/// Whether the `initial` is such.
fn is_wrong_initial(first: &[u8], initial: &Option<UdpInitial>) -> bool
    ensures { result ≡ list_any (is_wrong_start first.now) (initial_starts initial.now) }
{
    match initial {
        Some(initial) => is_wrong_start(first, &initial.name, &initial.value),
        None => false,
    }
}

/// Whether the header has a start value.
fn header_has_start(ports: &UdpPorts) -> bool
    ensures { result ≡ not (is_empty (header_starts ports.now)) }
{
    match ports {
        UdpPorts::Names(_) => false,
        UdpPorts::Declared { start, .. } => start.is_some(),
    }
}

/// Whether a declaration has a start value.
fn item_has_start(item: &UdpItem) -> bool
    ensures { result ≡ not (is_empty (item_starts item.now)) }
{
    match item {
        UdpItem::Output { start, .. } => start.is_some(),
        UdpItem::Input(_, _) | UdpItem::Reg(_, _) => false,
    }
}

/// How many declarations have a start value.
fn count_starts(items: &[UdpItem]) -> usize
    ensures count { result ≡ count_by (λ item. not (is_empty (item_starts item))) items.now }
    ensures bound { result ≤ length items.now }
{
    items.iter().filter(|item| item_has_start(item)).count()
}

/// Whether there are several start values.
fn has_several_starts(udp: &UdpDecl) -> bool
    ensures { result ≡ nat_lt 1 (length (starts udp.now)) }
{
    let header = one_if(header_has_start(&udp.ports));
    let initial = one_if(udp.initial.is_some());
    header + count_starts(udp.items.as_slice()) + initial > 1
}

/// Whether some start value is of another name than the first port or isn't 0, 1 or x.
fn has_wrong_start(udp: &UdpDecl) -> bool
    ensures { result ≡ list_any (is_wrong_start (first_port udp.now.ports)) (starts udp.now) }
{
    let first = first_port(&udp.ports);
    header_has_wrong_start(first, &udp.ports)
        || items_have_wrong_start(first, udp.items.as_slice())
        || is_wrong_initial(first, &udp.initial)
}

/// Whether a start value is of another name than the first port, isn't 0, 1 or x, or stands twice.
pub fn breaks_starts(udp: &UdpDecl) -> bool
    ensures { result ≡ breaks_starts udp.now }
{
    has_wrong_start(udp) || has_several_starts(udp)
}
