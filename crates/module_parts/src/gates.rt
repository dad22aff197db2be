//! Gates, with the bits of their terminals.
ghost use Rattle.std.specs.Prelude.{◌≡◌, ◌++◌, map, IfOk, OnOk};
ghost use Rattle.module_parts.specs.Parts.{gate_part, terminal_runs};

use crate::names::name_text;
use crate::parts::{GatePart, ModulePart, PartList, TerminalList};
use expression_bits::{RunList, place_runs};
use sqlite_items::Items;
use std::alloc::{AllocError, Global};
use v_tree::{Expr, Terms};

/// The bit of a terminal.
pub fn terminal_runs(alloc: Global, expr: &Expr) -> Result<RunList, AllocError>
    ensures { IfOk result (λ runs. runs ≡ terminal_runs expr.now) }
{
    place_runs(alloc, 1, expr)
}

/// The bits of terminals.
fn terminal_list(alloc: Global, terminals: &[Expr]) -> Result<TerminalList, AllocError>
    ensures { IfOk result (λ list. list ≡ map terminal_runs terminals.now) }
{
    let mut list = Items::new(alloc);
    for terminal in terminals {
        list.push(terminal_runs(alloc, terminal)?)?;
    }
    Ok(list)
}

/// A gate of the item of an index.
fn gate_part(alloc: Global, item: usize, terms: &Terms) -> Result<ModulePart, AllocError>
    ensures { IfOk result (λ part. part ≡ gate_part item terms.now) }
{
    Ok(ModulePart::Gate(GatePart {
        item,
        name: name_text(alloc, &terms.name)?,
        terminals: terminal_list(alloc, terms.terminals.as_slice())?,
    }))
}

/// Adds the gates of the item of an index.
pub fn push_gates(
    alloc: Global,
    parts: &mut PartList,
    item: usize,
    gates: &[Terms],
) -> Result<(), AllocError>
    ensures { OnOk result (parts.new ≡ parts.old ++ map (gate_part item) gates.now) }
{
    for terms in gates {
        parts.push(gate_part(alloc, item, terms)?)?;
    }
    Ok(())
}
