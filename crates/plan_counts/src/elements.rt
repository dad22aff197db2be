//! How many elements parts are.
ghost use Rattle.std.specs.Prelude.{◌≡◌, ◌+◌, IfOk};
ghost use Rattle.std.specs.List.{flat_map};
ghost use Rattle.netlist_plan.specs.Unnamed.{runs_in};
ghost use Rattle.plan_counts.specs.PartCounts.{elements_in, form_count, gate_count, item_count, literal_width, literals_width, pair_count, part_elements};

use crate::sums::{count_of, sum_of};
use element_forms::{ElementForm, element_form};
use expression_bits::{BitRun, RunList, runs_width};
use module_parts::{ModulePart, PairPart, PortRuns};
use module_scope::Scope;
use std::alloc::AllocError;
use v_tree::Item;

/// How many bits a literal has.
fn literal_width(run: &BitRun) -> u64
    ensures { result ≡ literal_width run.now }
{
    match run {
        BitRun::Net(_, _) => 0,
        BitRun::Literal(bits) => bits.as_slice().len() as u64,
    }
}

/// A count with the bits of the literals among runs.
fn with_literals(count: u64, runs: &[BitRun]) -> Result<u64, AllocError>
    ensures { IfOk result (λ sum. sum ≡ count + literals_width runs.now) }
{
    let mut sum = count;
    for run in runs {
        sum = sum_of(sum, literal_width(run))?;
    }
    Ok(sum)
}

/// A count with the bits of the literals in terminals.
fn with_terminals(count: u64, terminals: &[RunList]) -> Result<u64, AllocError>
    ensures { IfOk result (λ sum.
        sum ≡ count + literals_width (flat_map (λ list. list) terminals.now)) }
{
    let mut sum = count;
    for runs in terminals {
        sum = with_literals(sum, runs.as_slice())?;
    }
    Ok(sum)
}

/// A count with the bits of the literals in connections.
fn with_connections(count: u64, connections: &[PortRuns]) -> Result<u64, AllocError>
    ensures { IfOk result (λ sum.
        sum ≡ count + literals_width (flat_map (λ c. c.runs) connections.now)) }
{
    let mut sum = count;
    for connection in connections {
        sum = with_literals(sum, connection.runs.as_slice())?;
    }
    Ok(sum)
}

/// How many elements a gate of a form is.
fn form_count(form: ElementForm) -> u64
    ensures { result ≡ form_count form }
{
    match form {
        ElementForm::Single(_) | ElementForm::Bidirectional { .. } => 1,
        ElementForm::Complementary { .. } => 2,
    }
}

/// How many elements each gate of an item is.
fn item_count(item: &Item) -> u64
    ensures { result ≡ item_count item.now }
{
    match item {
        Item::Gates(gates) => form_count(element_form(&gates.kind)),
        Item::Instances(_)
        | Item::Ports(_)
        | Item::Nets(_)
        | Item::Trireg(_)
        | Item::Assign(_)
        | Item::Cell(_)
        | Item::Specify(_) => 1,
    }
}

/// How many elements each gate of the item of an index is.
fn gate_count(items: &[Item], index: usize) -> u64
    ensures { result ≡ gate_count items.now index }
{
    match items.get(index) {
        Some(item) => item_count(item),
        None => 1,
    }
}

/// How many elements an assignment is without its constants.
fn pair_count(scope: &Scope, pair: &PairPart) -> Result<u64, AllocError>
    ensures { IfOk result (λ count. count ≡ pair_count scope.now pair.now) }
{
    let target = runs_width(scope, pair.target.as_slice());
    let value = runs_width(scope, pair.value.runs.as_slice()).saturating_sub(pair.value.cut);
    count_of(target.min(value))
}

/// How many elements a part is, the constants of its literals among them.
fn part_elements(scope: &Scope, items: &[Item], part: &ModulePart) -> Result<u64, AllocError>
    ensures { IfOk result (λ count. count ≡ part_elements scope.now items.now part.now) }
{
    match part {
        ModulePart::Names(_) => Ok(0),
        ModulePart::Gate(gate) => {
            with_terminals(gate_count(items, gate.item), gate.terminals.as_slice())
        }
        ModulePart::Pair(pair) => {
            let own = pair_count(scope, pair)?;
            let sum = with_literals(own, pair.target.as_slice())?;
            with_literals(sum, pair.value.runs.as_slice())
        }
        ModulePart::Instance(instance) => with_connections(0, instance.connections.as_slice()),
    }
}

/// How many elements parts are.
pub fn elements_in(scope: &Scope, items: &[Item], parts: &[ModulePart]) -> Result<u64, AllocError>
    ensures { IfOk result (λ count. count ≡ elements_in scope.now items.now parts.now) }
{
    let mut count = 0;
    for part in parts {
        count = sum_of(count, part_elements(scope, items, part)?)?;
    }
    Ok(count)
}
