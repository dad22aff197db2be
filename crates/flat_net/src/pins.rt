ghost use Rattle.std.specs.Prelude.{◌≡◌, ◌+◌, ◌^◌, length, nat_lt};
ghost use Rattle.std.specs.List.{list_all};
ghost use Rattle.flat_net.specs.Elements.{joins_ends as joins_ends_of};
ghost use Rattle.flat_net.specs.Tests.{are_below as are_below_of, are_ends as are_ends_of, has_pins as has_pins_of, is_element as is_element_of, is_fold as is_fold_of};

use crate::kinds::ElementKind;
use crate::parts::Element;
use logic_tables::FoldKind;
use udp_table::Udp;

fn is_fold(kind: FoldKind, outs: usize, ins: usize) -> bool
    ensures { result ≡ is_fold_of kind outs ins }
{
    match kind {
        FoldKind::Buf | FoldKind::Not => 1 <= outs && ins == 1,
        _ => outs == 1 && 1 <= ins,
    }
}

/// Whether an element of a kind may have so many outputs and inputs.
fn has_pins(udps: &[Udp], kind: ElementKind, outs: usize, ins: usize) -> bool
    ensures { result ≡ has_pins_of udps.now kind outs ins }
{
    match kind {
        ElementKind::Fold(fold) => is_fold(fold, outs, ins),
        ElementKind::Enable(_) | ElementKind::Mos { .. } => outs == 1 && ins == 2,
        ElementKind::Udp(number) => match udps.get(number as usize) {
            Some(udp) => outs == 1 && udp.inputs() as usize == ins,
            None => false,
        },
        ElementKind::Copy => outs == 1 && ins == 1,
        ElementKind::Constant(_) | ElementKind::Pull(_) => outs == 1 && ins == 0,
        ElementKind::Tran => outs == 0 && ins == 0,
        ElementKind::Tranif { .. } => outs == 0 && ins == 1,
    }
}

/// Whether an element of a kind joins two ends.
fn joins_ends(kind: ElementKind) -> bool
    ensures { result ≡ joins_ends_of kind }
{
    matches!(kind, ElementKind::Tran | ElementKind::Tranif { .. })
}

pub(crate) fn are_below(count: usize, nets: &[u32]) -> bool
    ensures { result ≡ are_below_of count nets.now }
{
    nets.iter().all(|net| (*net as usize) < count)
}

fn are_ends(count: usize, joins: bool, ends: Option<(u32, u32)>) -> bool
    ensures { result ≡ are_ends_of count joins ends }
{
    match ends {
        None => !joins,
        Some((a, b)) => joins && (a as usize) < count && (b as usize) < count,
    }
}

/// Whether so many pins, outputs and inputs are fewer than 2^32.
fn are_few(ends: usize, outs: usize, ins: usize) -> bool
    ensures { result ≡ nat_lt (ends + outs + ins) (2 ^ 32) }
{
    let limit = 1 << 32;
    ends < limit && outs < limit && ins < limit && ends + outs + ins < limit
}

/// Whether an element has the pins of its kind, on nets below the count.
fn is_element(count: usize, udps: &[Udp], element: &Element) -> bool
    ensures { result ≡ is_element_of count udps.now element.now }
{
    let outs = element.outs.as_slice();
    let ins = element.ins.as_slice();
    let ends = if element.ends.is_some() { 2 } else { 0 };
    element.s0 <= 7
        && element.s1 <= 7
        && has_pins(udps, element.kind, outs.len(), ins.len())
        && are_ends(count, joins_ends(element.kind), element.ends)
        && are_few(ends, outs.len(), ins.len())
        && are_below(count, outs)
        && are_below(count, ins)
}

/// Whether each element has the pins of its kind, on nets below the count.
pub(crate) fn are_elements(count: usize, udps: &[Udp], elements: &[Element]) -> bool
    ensures { result ≡ list_all (is_element_of count udps.now) elements.now }
{
    elements
        .iter()
        .all(|element| is_element(count, udps, element))
}
