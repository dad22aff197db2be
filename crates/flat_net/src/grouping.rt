ghost use Rattle.std.specs.Prelude.{◌≡◌, IfOk};
ghost use Rattle.std.specs.Bool.{Decides};
ghost use Rattle.flat_net.specs.Soundness.{AreCells, AreJoined};
ghost use Rattle.flat_net.specs.Tests.{all_at, is_grouped as is_grouped_of, joins_first as joins_first_of, stands_with_least as stands_with_least_of};

use crate::joints::switch_ends;
use crate::parts::{Island, NetPart, Parts};
use crate::places::is_at;
use net_groups::groups_of;
use std::alloc::{AllocError, Global};

/// Whether the first net of the island has the same least net as this one.
fn joins_first(island: &Island, least: &[u32], number: usize) -> bool
    ensures { result ≡ joins_first_of island.now least.now number }
{
    let Some(first) = island.nets.as_slice().first() else {
        return false;
    };
    match least.get(*first as usize) {
        Some(other) => is_at(least, number, *other as usize),
        None => false,
    }
}

/// Whether a net and the least net that it is joined with stand in one island.
fn stands_with_least(nets: &[NetPart], least: &[u32], number: usize, part: &NetPart) -> bool
    ensures { result ≡ stands_with_least_of nets.now least.now number part.now }
{
    let Some(other) = least.get(number) else {
        return false;
    };
    match nets.get(*other as usize) {
        Some(near) => near.island == part.island,
        None => false,
    }
}

fn is_grouped(
    nets: &[NetPart],
    islands: &[Island],
    least: &[u32],
    number: usize,
    part: &NetPart,
) -> bool
    ensures { result ≡ is_grouped_of nets.now islands.now least.now number part.now }
{
    match islands.get(part.island as usize) {
        Some(island) => {
            joins_first(island, least, number) && stands_with_least(nets, least, number, part)
        }
        None => false,
    }
}

/// Whether the nets of each island are those that have one least net.
fn are_grouped(nets: &[NetPart], islands: &[Island], least: &[u32]) -> bool
    ensures { result ≡ all_at (is_grouped_of nets.now islands.now least.now) nets.now }
{
    nets.iter().enumerate().all(|(number, part)| is_grouped(nets, islands, least, number, part))
}

/// Whether the nets of each island are exactly those that bidirectional switches join.
pub(crate) fn are_joined(alloc: Global, parts: &Parts) -> Result<bool, AllocError>
    requires { AreCells parts.now }
    ensures { IfOk result (λ joined. Decides joined (AreJoined parts.now)) }
{
    let nets = parts.nets.as_slice();
    let pairs = switch_ends(alloc, parts.elements.as_slice())?;
    let least = groups_of(alloc, nets.len() as u32, &pairs)?;
    Ok(are_grouped(nets, parts.islands.as_slice(), &least))
}
