//! The forms and the strengths of items.
ghost use Rattle.std.specs.Prelude.{◌≡◌, ℕ, List, map, IfOk, slice_get, slice_index_or};
ghost use Rattle.std.specs.Option.{unwrap_or};
ghost use Rattle.module_graph.specs.Graph.{references_in};
ghost use Rattle.module_graph.specs.declared.references.Master.{Master as MasterValue};
ghost use Rattle.netlist_plan.specs.Plan.{item_form, item_strengths, strengths_at};
ghost use Rattle.module_plan.specs.Meant.{meanings};
ghost use Rattle.module_plan.specs.Surroundings.{reference_count};

use element_forms::{ElementForm, Strengths, drive_strengths, element_form, gate_strengths};
use flat_net::ElementKind;
use instance_rules::master_at;
use module_graph::{Master, Reference};
use std::alloc::{AllocError, Global};
use v_tree::Item;

/// The number of the primitive of an index.
fn udp_number(numbers: &[u32], index: usize) -> u32
    ensures { result ≡ slice_index_or numbers.now index 0 }
{
    numbers.get(index).copied().unwrap_or(0)
}

/// The form of the gates of an item whose name means a master, where it is one of instances.
fn item_form(udp_numbers: &[u32], master: Master, item: &Item) -> ElementForm
    ensures { result ≡ item_form (meanings (λ name. master) udp_numbers.now) item.now }
{
    match item {
        Item::Gates(gates) => element_form(&gates.kind),
        Item::Instances(_) => match master {
            Master::Udp(index) => {
                ElementForm::Single(ElementKind::Udp(udp_number(udp_numbers, index)))
            }
            Master::Module(_) | Master::Unknown => ElementForm::Single(ElementKind::Copy),
        },
        Item::Ports(_)
        | Item::Nets(_)
        | Item::Trireg(_)
        | Item::Assign(_)
        | Item::Cell(_)
        | Item::Specify(_) => ElementForm::Single(ElementKind::Copy),
    }
}

/// How many references an item has.
fn reference_count(item: &Item) -> usize
    ensures { result ≡ reference_count item.now }
{
    match item {
        Item::Instances(_) => 1,
        Item::Ports(_)
        | Item::Nets(_)
        | Item::Trireg(_)
        | Item::Assign(_)
        | Item::Gates(_)
        | Item::Cell(_)
        | Item::Specify(_) => 0,
    }
}

/// The form of the gates of each item, where the references are those of the items.
pub fn item_forms(
    alloc: Global,
    references: &[Reference],
    udp_numbers: &[u32],
    items: &[Item],
) -> Result<Vec<ElementForm>, AllocError>
    ensures { IfOk result (λ forms. (of : List ℕ → MasterValue) →
        references.now ≡ references_in of items.now
        → forms.items ≡ map (item_form (meanings of udp_numbers.now)) items.now) }
{
    let mut forms = Vec::new(alloc);
    let mut next = 0;
    for item in items {
        forms.push(item_form(udp_numbers, master_at(references, next), item))?;
        next += reference_count(item);
    }
    Ok(forms)
}

/// The form of the item of an index; of what has no gates none is asked for.
pub fn form_at(forms: &[ElementForm], index: usize) -> ElementForm
    ensures { result ≡ unwrap_or (slice_get forms.now index) (ElementForm.Single ElementKind.Copy) }
{
    forms
        .get(index)
        .copied()
        .unwrap_or(ElementForm::Single(ElementKind::Copy))
}

/// The strengths of what an item drives.
fn item_strengths(item: &Item) -> Strengths
    ensures { result ≡ item_strengths item.now }
{
    match item {
        Item::Gates(gates) => gate_strengths(&gates.kind),
        Item::Instances(instance) => drive_strengths(instance.drive),
        Item::Nets(decl) => drive_strengths(decl.drive),
        Item::Assign(assign) => drive_strengths(assign.drive),
        Item::Ports(_) | Item::Trireg(_) | Item::Cell(_) | Item::Specify(_) => {
            drive_strengths(None)
        }
    }
}

/// The strengths of what the item of an index drives.
pub fn strengths_at(items: &[Item], index: usize) -> Strengths
    ensures { result ≡ strengths_at items.now index }
{
    match items.get(index) {
        Some(item) => item_strengths(item),
        None => drive_strengths(None),
    }
}
