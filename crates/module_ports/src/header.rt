//! The entries of a header.
ghost use Rattle.std.specs.Prelude.{◌≡◌, ◌++◌, map, OnOk, IfOk};
ghost use Rattle.module_ports.specs.Entries.{AreEntries, ports_in};
ghost use Rattle.module_ports.specs.Ports.{entry_name, header_names, port_of, ports_of};

use crate::entries::PortEntries;
use module_scope::Scope;
use std::alloc::{AllocError, Global};
use v_tree::{AnsiEntry, Module, Name, Ports};

/// Adds entries that are names.
fn push_names(entries: &mut PortEntries, scope: &Scope, names: &[Name]) -> Result<(), AllocError>
    requires { AreEntries entries.old }
    ensures entries { OnOk result (AreEntries entries.new) }
    ensures ports { OnOk result (ports_in entries.new
        ≡ ports_in entries.old ++ map (λ name. port_of scope.now name.text) names.now) }
{
    for name in names {
        entries.push(scope, name)?;
    }
    Ok(())
}

/// The name of an entry.
fn entry_name(entry: &AnsiEntry) -> &Name
    ensures { result.now ≡ entry_name entry.now }
{
    match entry {
        AnsiEntry::Port(port) => &port.name,
        AnsiEntry::Name(name) => name,
    }
}

/// Adds entries behind the first.
fn push_entries(
    entries: &mut PortEntries,
    scope: &Scope,
    others: &[AnsiEntry],
) -> Result<(), AllocError>
    requires { AreEntries entries.old }
    ensures entries { OnOk result (AreEntries entries.new) }
    ensures ports { OnOk result (ports_in entries.new
        ≡ ports_in entries.old ++ map (λ name. port_of scope.now name.text) (map entry_name others.now)) }
{
    for other in others {
        entries.push(scope, entry_name(other))?;
    }
    Ok(())
}

/// Adds the entries of a header.
fn push_header(entries: &mut PortEntries, scope: &Scope, ports: &Ports) -> Result<(), AllocError>
    requires { AreEntries entries.old }
    ensures entries { OnOk result (AreEntries entries.new) }
    ensures ports { OnOk result (ports_in entries.new
        ≡ ports_in entries.old ++ map (λ name. port_of scope.now name.text) (header_names ports.now)) }
{
    match ports {
        Ports::Absent | Ports::Empty => Ok(()),
        Ports::Names(names) => push_names(entries, scope, names.as_slice()),
        Ports::Ansi(first, others) => {
            entries.push(scope, &first.name)?;
            push_entries(entries, scope, others.as_slice())
        }
    }
}

/// The entries of a module's header.
pub fn entries_of(alloc: Global, module: &Module, scope: &Scope) -> Result<PortEntries, AllocError>
    ensures entries { IfOk result (λ entries. AreEntries entries) }
    ensures ports { IfOk result (λ entries. ports_in entries ≡ ports_of scope.now «module».now) }
{
    let mut entries = PortEntries::new(alloc);
    push_header(&mut entries, scope, &module.ports)?;
    Ok(entries)
}
