//! The places of an item of instances.
ghost use Rattle.std.specs.Prelude.{◌≡◌, ℕ, List, IfOk};
ghost use Rattle.std.specs.List.{flat_map};
ghost use Rattle.module_ports.specs.Ports.{Port};
ghost use Rattle.rule_places.specs.Places.{first_place};
ghost use Rattle.instance_rules.specs.Items.{item_places};
ghost use Rattle.instance_rules.specs.Links.{ports_of};
ghost use Rattle.instance_rules.specs.Rules.{drive_or_delay, item_delays};
ghost use Rattle.instance_rules.specs.Walks.{AreFirst, inst_places};

use crate::connections::{connection_place, count_place};
use crate::links::links_places;
use crate::places::{ItemPlaces, earliest_places, no_places};
use item_parts::{delay_place, drive_place};
use module_graph::Master;
use module_ports::PortTable;
use module_scope::Scope;
use std::alloc::{AllocError, Global};
use v_tree::{DelaySpec, DriveStrength, Inst, Instance, Location};

/// The places of one instance.
fn inst_places(
    alloc: Global,
    scope: &Scope,
    tables: &[PortTable],
    counts: &[usize],
    master: Master,
    inst: &Inst,
) -> Result<ItemPlaces, AllocError>
    ensures { IfOk result (λ places. AreFirst
        (λ rule. inst_places rule scope.now (ports_of tables.now counts.now master) inst.now)
        places) }
{
    let connections = connection_place(alloc, tables, master, inst)?;
    Ok(ItemPlaces {
        counts: count_place(counts, master, inst),
        connections,
        ..links_places(scope, tables, master, &inst.connections)
    })
}

/// The places of instances.
fn insts_places(
    alloc: Global,
    scope: &Scope,
    tables: &[PortTable],
    counts: &[usize],
    master: Master,
    instances: &[Inst],
) -> Result<ItemPlaces, AllocError>
    ensures { IfOk result (λ places. AreFirst
        (λ rule. flat_map (inst_places rule scope.now (ports_of tables.now counts.now master))
        instances.now)
        places) }
{
    let mut places = no_places();
    for inst in instances {
        let more = inst_places(alloc, scope, tables, counts, master, inst)?;
        places = earliest_places(places, more);
    }
    Ok(places)
}

/// The `(` of a drive, else the `#` of a delay.
fn drive_or_delay(drive: Option<DriveStrength>, delay: &Option<DelaySpec>) -> Option<Location>
    ensures { result ≡ first_place (drive_or_delay drive delay.now) }
{
    match (drive, delay) {
        (Some(drive), _) => Some(drive.location),
        (None, Some(delay)) => Some(delay.location),
        (None, None) => None,
    }
}

/// The place of a delay, or of a drive, that an item's instances can't have.
fn item_delay(master: Master, item: &Instance) -> Option<Location>
    ensures { (tables : List (List Port)) (counts : List ℕ) →
        result ≡ first_place (item_delays (ports_of tables counts master) item.now) }
{
    match master {
        Master::Module(_) => drive_or_delay(item.drive, &item.delay),
        Master::Udp(_) => delay_place(2, &item.delay),
        Master::Unknown => None,
    }
}

/// The places of an item of instances.
pub fn item_places(
    alloc: Global,
    scope: &Scope,
    tables: &[PortTable],
    counts: &[usize],
    master: Master,
    item: &Instance,
) -> Result<ItemPlaces, AllocError>
    ensures { IfOk result (λ places. AreFirst
        (λ rule. item_places rule scope.now (ports_of tables.now counts.now master) item.now)
        places) }
{
    let instances = item.instances.as_slice();
    let places = insts_places(alloc, scope, tables, counts, master, instances)?;
    Ok(ItemPlaces {
        delays: item_delay(master, item),
        drives: drive_place(item.drive),
        ..places
    })
}
