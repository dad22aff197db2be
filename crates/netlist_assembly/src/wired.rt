//! Wired nets at terminals of bidirectional switches.
ghost use Rattle.std.specs.Prelude.{◌≡◌, [], ◌∷◌};
ghost use Rattle.rule_places.specs.Places.{first_place};
ghost use Rattle.flat_assembly.specs.Assembly.{class_at, classes};
ghost use Rattle.flat_assembly.specs.Wired.{is_wired, wired_places};

use flat_net::NetKind;
use net_islands::NetClass;
use netlist_plan::NetClaim;
use rule_places::earliest;
use v_tree::Location;

/// Whether a net is a wired one.
fn is_wired(class: NetClass) -> bool
    ensures { result ≡ is_wired class }
{
    match class.kind {
        NetKind::And | NetKind::Or => true,
        _ => false,
    }
}

/// Whether the net of a number is a wired one, by the claims on each net.
fn is_wired_net(claims: &[NetClaim], net: u32) -> bool
    ensures { result ≡ is_wired (class_at (classes claims.now) net) }
{
    match claims.get(net as usize) {
        Some(claim) => is_wired(claim.class),
        None => false,
    }
}

/// The place of a terminal, where its net is a wired one.
fn wired_place(claims: &[NetClaim], net: u32, place: Location) -> Option<Location>
    ensures { result ≡ first_place (wired_places (classes claims.now) ((net, place) ∷ [])) }
{
    if is_wired_net(claims, net) {
        Some(place)
    } else {
        None
    }
}

/// The first of these terminals whose net is a wired one, by the claims on each net.
pub fn first_wired(claims: &[NetClaim], terminals: &[(u32, Location)]) -> Option<Location>
    ensures { result ≡ first_place (wired_places (classes claims.now) terminals.now) }
{
    let mut first = None;
    for (net, place) in terminals {
        first = earliest(first, wired_place(claims, *net, *place));
    }
    first
}
