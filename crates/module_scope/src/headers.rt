//! The names of a module's header.
ghost use Rattle.std.specs.Prelude.{◌≡◌, ◌++◌, OnOk};
ghost use Rattle.module_scope.specs.Mentions.{names_mentions, name_mentions, ansi_role, ansi_mentions, entries_mentions, header_mentions};

use crate::mentions::MentionList;
use crate::roles::{PortRole, Role};
use std::alloc::AllocError;
use v_tree::{AnsiEntry, AnsiPort, Name, Ports};

/// Adds mentions of the names, all with one role.
pub fn push_names(list: &mut MentionList, role: Role, names: &[Name]) -> Result<(), AllocError>
    ensures { OnOk result (list.new ≡ list.old ++ names_mentions role names.now) }
{
    for name in names {
        list.push(role, name)?;
    }
    Ok(())
}

/// Adds a mention of the name, where there is one.
pub fn push_name(list: &mut MentionList, role: Role, name: &Option<Name>) -> Result<(), AllocError>
    ensures { OnOk result (list.new ≡ list.old ++ name_mentions role name.now) }
{
    if let Some(name) = name {
        list.push(role, name)?;
    }
    Ok(())
}

/// What an entry with a direction says of its port, and of those that continue it.
fn ansi_role(port: &AnsiPort) -> PortRole
    ensures { result ≡ ansi_role port.now }
{
    PortRole {
        direction: port.direction,
        net_type: port.net_type,
        range: port.range,
    }
}

/// Adds an entry that declares a port.
fn push_ansi(list: &mut MentionList, port: PortRole, name: &Name) -> Result<(), AllocError>
    ensures { OnOk result (list.new ≡ list.old ++ ansi_mentions port name.now) }
{
    list.push(Role::Header, name)?;
    list.push(Role::Port(port), name)
}

/// Adds the entries behind the first.
fn push_entries(
    list: &mut MentionList,
    first: PortRole,
    entries: &[AnsiEntry],
) -> Result<(), AllocError>
    ensures { OnOk result (list.new ≡ list.old ++ entries_mentions first entries.now) }
{
    let mut port = first;
    for entry in entries {
        match entry {
            AnsiEntry::Port(ansi) => {
                port = ansi_role(ansi);
                push_ansi(list, port, &ansi.name)?;
            }
            AnsiEntry::Name(name) => push_ansi(list, port, name)?,
        }
    }
    Ok(())
}

/// Adds the names of the header.
pub fn push_header(list: &mut MentionList, ports: &Ports) -> Result<(), AllocError>
    ensures { OnOk result (list.new ≡ list.old ++ header_mentions ports.now) }
{
    match ports {
        Ports::Absent | Ports::Empty => Ok(()),
        Ports::Names(names) => push_names(list, Role::Header, names.as_slice()),
        Ports::Ansi(first, entries) => {
            let port = ansi_role(first);
            push_ansi(list, port, &first.name)?;
            push_entries(list, port, entries.as_slice())
        }
    }
}
