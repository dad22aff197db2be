//! The nets of a flat netlist.
ghost use Rattle.std.specs.Prelude.{◌≡◌, map, IfOk};
ghost use Rattle.std.specs.List.{zip};
ghost use Rattle.flat_assembly.specs.Assembly.{classes, net_part};

use delay_rule::Delays;
use flat_net::NetPart;
use net_islands::{NetClass, NetPlace};
use netlist_plan::NetClaim;
use std::alloc::{AllocError, Global};

/// What nets with these claims on them are before their islands are known.
pub fn classes(alloc: Global, claims: &[NetClaim]) -> Result<Vec<NetClass>, AllocError>
    ensures { IfOk result (λ list. list.items ≡ classes claims.now) }
{
    claims.iter().map(|claim| claim.class).collect(alloc)
}

/// A net with this claim on it at its place, where these are the delays of one without.
fn net_part(none: Delays, claim: NetClaim, place: NetPlace) -> NetPart
    ensures { result ≡ net_part none (claim, place) }
{
    NetPart {
        kind: claim.class.kind,
        charge: claim.class.charge,
        delays: claim.delays.unwrap_or(none),
        island: place.island,
        place: place.place,
    }
}

/// Nets with these claims on them at their places, where these are the delays of one without.
pub fn net_parts(
    alloc: Global,
    none: Delays,
    claims: &[NetClaim],
    places: &[NetPlace],
) -> Result<Vec<NetPart>, AllocError>
    ensures { IfOk result (λ nets. nets.items ≡ map (net_part none) (zip claims.now places.now)) }
{
    claims
        .iter()
        .zip(places)
        .map(|(claim, place)| net_part(none, *claim, *place))
        .collect(alloc)
}
