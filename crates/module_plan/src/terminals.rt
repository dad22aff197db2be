//! The terminals of bidirectional switches.
ghost use Rattle.std.specs.Prelude.{◌≡◌, ◌+◌, ◌++◌, IfOk, OnOk};
ghost use Rattle.std.specs.List.{flat_map};
ghost use Rattle.module_scope.specs.Scopes.{scope_net};
ghost use Rattle.item_parts.specs.Widths.{net_range};
ghost use Rattle.netlist_plan.specs.Nets.{name_first, select_offset};
ghost use Rattle.netlist_plan.specs.Plan.{expr_terminals, gate_terminals, is_bidirectional, item_terminals, run_terminal};

use crate::bits::{name_range, select_offset};
use crate::numbers::plan_sum;
use element_forms::{ElementForm, element_form};
use expression_bits::{BitRun, place_runs};
use item_parts::location_of;
use module_nets::NetTable;
use module_scope::Scope;
use netlist_plan::{SwitchTerminal, SwitchTerminalList};
use std::alloc::{AllocError, Global};
use v_tree::{Expr, GateItem, Item, Location, Select, Terms};

/// The first bit of a net or of bits of it.
fn pick_bit(
    scope: &Scope,
    nets: &NetTable,
    name: &[u8],
    select: Option<Select>,
) -> Result<u32, AllocError>
    ensures { IfOk result (λ bit. bit ≡ name_first nets.now name.now
        + select_offset (net_range (scope_net scope.now name.now)) select) }
{
    let offset = select_offset(name_range(scope, name), select);
    plan_sum(nets.name_first(name), u64::from(offset))
}

/// Adds a terminal whose first token stands at a location, where it is no literal.
fn push_run(
    list: &mut Vec<SwitchTerminal>,
    scope: &Scope,
    nets: &NetTable,
    location: Location,
    run: &BitRun,
) -> Result<(), AllocError>
    ensures { OnOk result (list.new.items
        ≡ list.old.items ++ run_terminal scope.now nets.now location run.now) }
{
    match run {
        BitRun::Net(name, select) => {
            let bit = pick_bit(scope, nets, name.as_slice(), *select)?;
            list.push(SwitchTerminal { bit, location })?;
            Ok(())
        }
        BitRun::Literal(_) => Ok(()),
    }
}

/// Adds the terminals that runs are.
fn push_runs(
    list: &mut Vec<SwitchTerminal>,
    scope: &Scope,
    nets: &NetTable,
    location: Location,
    runs: &[BitRun],
) -> Result<(), AllocError>
    ensures { OnOk result (list.new.items
        ≡ list.old.items ++ flat_map (run_terminal scope.now nets.now location) runs.now) }
{
    for run in runs {
        push_run(list, scope, nets, location, run)?;
    }
    Ok(())
}

/// Adds the terminal that an expression is.
fn push_expr(
    alloc: Global,
    list: &mut Vec<SwitchTerminal>,
    scope: &Scope,
    nets: &NetTable,
    expr: &Expr,
) -> Result<(), AllocError>
    ensures { OnOk result (list.new.items
        ≡ list.old.items ++ expr_terminals scope.now nets.now expr.now) }
{
    let runs = place_runs(alloc, 1, expr)?;
    push_runs(list, scope, nets, location_of(expr), runs.as_slice())
}

/// Adds the terminals of a gate.
fn push_terms(
    alloc: Global,
    list: &mut Vec<SwitchTerminal>,
    scope: &Scope,
    nets: &NetTable,
    exprs: &[Expr],
) -> Result<(), AllocError>
    ensures { OnOk result (list.new.items
        ≡ list.old.items ++ flat_map (expr_terminals scope.now nets.now) exprs.now) }
{
    for expr in exprs {
        push_expr(alloc, list, scope, nets, expr)?;
    }
    Ok(())
}

/// Adds the terminals of gates.
fn push_gates(
    alloc: Global,
    list: &mut Vec<SwitchTerminal>,
    scope: &Scope,
    nets: &NetTable,
    gates: &[Terms],
) -> Result<(), AllocError>
    ensures { OnOk result (list.new.items ≡ list.old.items
        ++ flat_map (λ t. flat_map (expr_terminals scope.now nets.now) t.terminals) gates.now) }
{
    for terms in gates {
        push_terms(alloc, list, scope, nets, terms.terminals.as_slice())?;
    }
    Ok(())
}

/// Whether gates of a form are bidirectional switches.
fn is_bidirectional(form: ElementForm) -> bool
    ensures { result ≡ is_bidirectional form }
{
    match form {
        ElementForm::Bidirectional { .. } => true,
        ElementForm::Single(_) | ElementForm::Complementary { .. } => false,
    }
}

/// Adds the terminals of an item of gates, where these are bidirectional switches.
fn push_gate_item(
    alloc: Global,
    list: &mut Vec<SwitchTerminal>,
    scope: &Scope,
    nets: &NetTable,
    item: &GateItem,
) -> Result<(), AllocError>
    ensures { OnOk result (list.new.items
        ≡ list.old.items ++ gate_terminals scope.now nets.now item.now) }
{
    if is_bidirectional(element_form(&item.kind)) {
        push_gates(alloc, list, scope, nets, item.gates.as_slice())
    } else {
        Ok(())
    }
}

/// Adds the terminals of the bidirectional switches of an item.
fn push_item(
    alloc: Global,
    list: &mut Vec<SwitchTerminal>,
    scope: &Scope,
    nets: &NetTable,
    item: &Item,
) -> Result<(), AllocError>
    ensures { OnOk result (list.new.items
        ≡ list.old.items ++ item_terminals scope.now nets.now item.now) }
{
    match item {
        Item::Gates(gates) => push_gate_item(alloc, list, scope, nets, gates),
        Item::Ports(_)
        | Item::Nets(_)
        | Item::Trireg(_)
        | Item::Assign(_)
        | Item::Instances(_)
        | Item::Cell(_)
        | Item::Specify(_) => Ok(()),
    }
}

/// The terminals of the bidirectional switches of a module.
pub fn switch_terminals(
    alloc: Global,
    scope: &Scope,
    nets: &NetTable,
    items: &[Item],
) -> Result<SwitchTerminalList, AllocError>
    ensures { IfOk result (λ list. list ≡ flat_map (item_terminals scope.now nets.now) items.now) }
{
    let mut list = Vec::new(alloc);
    for item in items {
        push_item(alloc, &mut list, scope, nets, item)?;
    }
    Ok(SwitchTerminalList::from_vec(list))
}
