//! Gates, assignments and declarations with a wrong drive.
ghost use Rattle.std.specs.Prelude.{◌≡◌};
ghost use Rattle.std.specs.List.{flat_map};
ghost use Rattle.rule_places.specs.Places.{first_place};
ghost use Rattle.gate_rules.specs.Rules.{kind_drives, idle_drives, declared_drives, item_drives};

use item_parts::{drive_place, pull_place};
use rule_places::earliest;
use v_tree::{DeclaredNames, DriveStrength, GateKind, Item, Location};

/// The place before gates.
fn kind_drive(kind: &GateKind) -> Option<Location>
    ensures { result ≡ first_place (kind_drives kind.now) }
{
    match kind {
        GateKind::Logic(_, drive, _) => drive_place(*drive),
        GateKind::Pull(gate, levels) => pull_place(*gate, *levels),
        GateKind::Switch(_, _) | GateKind::Tran(_) => None,
    }
}

/// The place of a drive of names that aren't assigned, whatever its levels.
fn idle_drive(drive: Option<DriveStrength>) -> Option<Location>
    ensures { result ≡ first_place (idle_drives drive) }
{
    match drive {
        Some(drive) => Some(drive.location),
        None => None,
    }
}

/// The place in a declaration of nets, which may have a drive only where they are assigned (IEEE
/// 1364-2005, 6.1.4).
fn declared_drive(names: &DeclaredNames, drive: Option<DriveStrength>) -> Option<Location>
    ensures { result ≡ first_place (declared_drives names.now drive) }
{
    match names {
        DeclaredNames::Names(_) => idle_drive(drive),
        DeclaredNames::Valued(_) => drive_place(drive),
    }
}

/// The place in an item.
fn item_drive(item: &Item) -> Option<Location>
    ensures { result ≡ first_place (item_drives item.now) }
{
    match item {
        Item::Nets(decl) => declared_drive(&decl.declared_names, decl.drive),
        Item::Assign(assign) => drive_place(assign.drive),
        Item::Gates(gates) => kind_drive(&gates.kind),
        _ => None,
    }
}

/// The first place among items.
pub fn items_drive(items: &[Item]) -> Option<Location>
    ensures { result ≡ first_place (flat_map item_drives items.now) }
{
    let mut first = None;
    for item in items {
        first = earliest(first, item_drive(item));
    }
    first
}
