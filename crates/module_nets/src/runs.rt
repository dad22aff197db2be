//! The nets that runs name.
ghost use Rattle.std.specs.Prelude.{◌∷◌, [], length, OnOk};
ghost use Rattle.std.specs.List.{flat_map};
ghost use Rattle.netlist_plan.specs.Nets.{run_sources};
ghost use Rattle.netlist_plan.specs.Unnamed.{literal_count};
ghost use Rattle.module_nets.specs.Entries.{AreNets, HasGained};

use crate::entries::NetEntries;
use expression_bits::{BitRun, RunList};
use module_parts::PortRuns;
use module_scope::Scope;
use std::alloc::{AllocError, Global};

/// Adds what a run names.
fn push_run(
    alloc: Global,
    entries: &mut NetEntries,
    scope: &Scope,
    run: &BitRun,
) -> Result<(), AllocError>
    requires { AreNets entries.old }
    ensures { OnOk result (HasGained scope.now entries.old entries.new
        (run_sources (length entries.old.literal_firsts) (run.now ∷ []))
        (literal_count (run.now ∷ []))) }
{
    match run {
        BitRun::Net(name, _) => entries.push_name(alloc, scope, name.as_slice()),
        BitRun::Literal(bits) => entries.push_literal(alloc, bits),
    }
}

/// Adds what runs name.
pub fn push_runs(
    alloc: Global,
    entries: &mut NetEntries,
    scope: &Scope,
    runs: &[BitRun],
) -> Result<(), AllocError>
    requires { AreNets entries.old }
    ensures { OnOk result (HasGained scope.now entries.old entries.new
        (run_sources (length entries.old.literal_firsts) runs.now)
        (literal_count runs.now)) }
{
    for run in runs {
        push_run(alloc, entries, scope, run)?;
    }
    Ok(())
}

/// Adds what the runs of terminals name.
pub fn push_terminals(
    alloc: Global,
    entries: &mut NetEntries,
    scope: &Scope,
    terminals: &[RunList],
) -> Result<(), AllocError>
    requires { AreNets entries.old }
    ensures { OnOk result (let runs = flat_map (λ list. list) terminals.now in
        HasGained scope.now entries.old entries.new
        (run_sources (length entries.old.literal_firsts) runs)
        (literal_count runs)) }
{
    for runs in terminals {
        push_runs(alloc, entries, scope, runs.as_slice())?;
    }
    Ok(())
}

/// Adds what the runs of connections name.
pub fn push_connections(
    alloc: Global,
    entries: &mut NetEntries,
    scope: &Scope,
    connections: &[PortRuns],
) -> Result<(), AllocError>
    requires { AreNets entries.old }
    ensures { OnOk result (let runs = flat_map (λ c. c.runs) connections.now in
        HasGained scope.now entries.old entries.new
        (run_sources (length entries.old.literal_firsts) runs)
        (literal_count runs)) }
{
    for connection in connections {
        push_runs(alloc, entries, scope, connection.runs.as_slice())?;
    }
    Ok(())
}
