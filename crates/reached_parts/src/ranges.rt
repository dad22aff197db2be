//! The ranges of declarations.
ghost use Rattle.std.specs.Prelude.{◌≡◌, ◌&&◌, length};
ghost use Rattle.std.specs.List.{items_where_true, list_any};
ghost use Rattle.module_scope.specs.Mentions.{vector_bounds};
ghost use Rattle.netlist_meaning.specs.Limits.{entry_range, has_wide, header_ranges, is_wide, item_range};

use item_parts::range_width;
use v_tree::{AnsiEntry, Item, Module, Ports, RangeBounds, VectorRange};

/// How many bits a range may have.
const GREATEST_WIDTH: u64 = 4096;

/// Whether a range has more than 4,096 bits.
fn is_wide(range: Option<RangeBounds>) -> bool
    ensures { result ≡ is_wide range }
{
    range_width(range) > GREATEST_WIDTH
}

/// The bounds of a range, where there is one.
fn vector_bounds(range: Option<VectorRange>) -> Option<RangeBounds>
    ensures { result ≡ vector_bounds range }
{
    match range {
        Some(vector) => Some(vector.range),
        None => None,
    }
}

/// The range that an item declares, where it declares one.
fn item_range(item: &Item) -> Option<RangeBounds>
    ensures { result ≡ item_range item.now }
{
    match item {
        Item::Ports(decl) => decl.range,
        Item::Nets(decl) => vector_bounds(decl.vector_range),
        Item::Trireg(decl) => vector_bounds(decl.vector_range),
        Item::Assign(_) | Item::Gates(_) | Item::Instances(_) | Item::Cell(_) | Item::Specify(_) =>
            None,
    }
}

/// Whether some item declares a range of more than 4,096 bits.
fn has_wide_item(items: &[Item]) -> bool
    ensures { result ≡ list_any (λ i. is_wide (item_range i)) items.now }
{
    items.iter().any(|item| is_wide(item_range(item)))
}

/// The range of an entry of a header, where it has one.
fn entry_range(entry: &AnsiEntry) -> Option<RangeBounds>
    ensures { result ≡ entry_range entry.now }
{
    match entry {
        AnsiEntry::Port(port) => port.range,
        AnsiEntry::Name(_) => None,
    }
}

/// Whether some entry of a header has a range of more than 4,096 bits.
fn has_wide_entry(entries: &[AnsiEntry]) -> bool
    ensures { result ≡ list_any (λ e. is_wide (entry_range e)) entries.now }
{
    entries.iter().any(|entry| is_wide(entry_range(entry)))
}

/// Whether a header has a range of more than 4,096 bits.
fn has_wide_header(ports: &Ports) -> bool
    ensures { result ≡ list_any is_wide (header_ranges ports.now) }
{
    match ports {
        Ports::Ansi(first, entries) => is_wide(first.range) || has_wide_entry(entries.as_slice()),
        Ports::Absent | Ports::Empty | Ports::Names(_) => false,
    }
}

/// Whether a declaration of a module has a range of more than 4,096 bits.
fn has_wide(module: &Module) -> bool
    ensures { result ≡ has_wide «module».now }
{
    has_wide_header(&module.ports) || has_wide_item(module.items.as_slice())
}

/// Whether a declaration of a module has a range of more than 4,096 bits, where its flag is set.
fn is_wide_if(is_reached: bool, module: &Module) -> bool
    ensures { result ≡ is_reached && has_wide «module».now }
{
    is_reached && has_wide(module)
}

/// Whether a declaration has a range of more than 4,096 bits in a module whose flag is set.
pub fn has_wide_range(modules: &[Module], reached: &[bool]) -> bool
    requires { length reached.now ≡ length modules.now }
    ensures { result ≡ list_any has_wide (items_where_true reached.now modules.now) }
{
    for i in 0..modules.len() {
        if is_wide_if(reached[i], &modules[i]) {
            return true;
        }
    }
    false
}
