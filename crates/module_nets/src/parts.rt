//! The nets that parts name.
ghost use Rattle.std.specs.Prelude.{◌≡◌, [], length, map, sum_by, IfOk, OnOk};
ghost use Rattle.std.specs.List.{flat_map};
ghost use Rattle.std.specs.Option.{option_map_or};
ghost use Rattle.module_scope.specs.declared.scopes.Scope.{Scope as ScopeValue};
ghost use Rattle.netlist_plan.specs.declared.nets.NetSource.TheVariants.{Named};
ghost use Rattle.netlist_plan.specs.Nets.{module_nets, part_sources};
ghost use Rattle.netlist_plan.specs.Unnamed.{numbered_from, unnamed_count};
ghost use Rattle.module_nets.specs.Entries.{AreNets, HasGained};

use crate::entries::NetEntries;
use crate::runs::{push_connections, push_runs, push_terminals};
use byte_lists::Bytes;
use module_parts::{GatePart, ModulePart, PairPart};
use module_scope::Scope;
use std::alloc::{AllocError, Global};

/// Adds the nets of names.
fn push_names(
    alloc: Global,
    entries: &mut NetEntries,
    scope: &Scope,
    names: &[Bytes],
) -> Result<(), AllocError>
    requires { AreNets entries.old }
    ensures { OnOk result
        (HasGained scope.now entries.old entries.new (map Named names.now) 0) }
{
    for name in names {
        entries.push_name(alloc, scope, name.as_slice())?;
    }
    Ok(())
}

/// Counts a gate that has no name.
fn count_gate(entries: &mut NetEntries, name: &Option<Bytes>) -> Result<(), AllocError>
    requires { AreNets entries.old }
    ensures { OnOk result ((scope : ScopeValue) →
        HasGained scope entries.old entries.new [] (option_map_or (λ text. 0) name.now 1)) }
{
    match name {
        Some(_) => Ok(()),
        None => entries.count_unnamed(),
    }
}

/// Adds what a gate names.
fn push_gate(
    alloc: Global,
    entries: &mut NetEntries,
    scope: &Scope,
    gate: &GatePart,
) -> Result<(), AllocError>
    requires { AreNets entries.old }
    ensures { OnOk result (HasGained scope.now entries.old entries.new
        (part_sources (length entries.old.literal_firsts, ModulePart.Gate gate.now))
        (unnamed_count (ModulePart.Gate gate.now))) }
{
    count_gate(entries, &gate.name)?;
    push_terminals(alloc, entries, scope, gate.terminals.as_slice())
}

/// Adds what an assignment names.
fn push_pair(
    alloc: Global,
    entries: &mut NetEntries,
    scope: &Scope,
    pair: &PairPart,
) -> Result<(), AllocError>
    requires { AreNets entries.old }
    ensures { OnOk result (HasGained scope.now entries.old entries.new
        (part_sources (length entries.old.literal_firsts, ModulePart.Pair pair.now))
        (unnamed_count (ModulePart.Pair pair.now))) }
{
    entries.count_unnamed()?;
    push_runs(alloc, entries, scope, pair.target.as_slice())?;
    push_runs(alloc, entries, scope, pair.value.runs.as_slice())
}

/// Adds what a part names.
fn push_part(
    alloc: Global,
    entries: &mut NetEntries,
    scope: &Scope,
    part: &ModulePart,
) -> Result<(), AllocError>
    requires { AreNets entries.old }
    ensures { OnOk result (HasGained scope.now entries.old entries.new
        (part_sources (length entries.old.literal_firsts, part.now))
        (unnamed_count part.now)) }
{
    match part {
        ModulePart::Names(names) => push_names(alloc, entries, scope, names.as_slice()),
        ModulePart::Gate(gate) => push_gate(alloc, entries, scope, gate),
        ModulePart::Pair(pair) => push_pair(alloc, entries, scope, pair),
        ModulePart::Instance(instance) => {
            push_connections(alloc, entries, scope, instance.connections.as_slice())
        }
    }
}

/// Adds what parts name.
fn push_parts(
    alloc: Global,
    entries: &mut NetEntries,
    scope: &Scope,
    parts: &[ModulePart],
) -> Result<(), AllocError>
    requires { AreNets entries.old }
    ensures { OnOk result (HasGained scope.now entries.old entries.new
        (flat_map part_sources (numbered_from (length entries.old.literal_firsts) parts.now))
        (sum_by unnamed_count parts.now)) }
{
    for part in parts {
        push_part(alloc, entries, scope, part)?;
    }
    Ok(())
}

/// The nets of a module, by its parts.
pub fn entries_of(
    alloc: Global,
    scope: &Scope,
    parts: &[ModulePart],
) -> Result<NetEntries, AllocError>
    ensures entries { IfOk result (λ entries. AreNets entries) }
    ensures nets { IfOk result (λ entries. entries.nets ≡ module_nets scope.now parts.now) }
{
    let mut entries = NetEntries::new(alloc);
    push_parts(alloc, &mut entries, scope, parts)?;
    Ok(entries)
}
