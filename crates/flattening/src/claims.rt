//! What declarations say of each net.
ghost use Rattle.std.specs.Prelude.{◌≡◌, map, replicate, IfOk};
ghost use Rattle.std.specs.List.{range_with_len};
ghost use Rattle.netlist_plan.specs.Claims.{claim_on, is_plain, plain_claim};
ghost use Rattle.flattening.specs.Slots.{claim_slots};

use flat_net::NetKind;
use net_islands::NetClass;
use netlist_plan::NetClaim;
use std::alloc::{AllocError, Global};

/// A wire without delay.
fn plain_claim() -> NetClaim
    ensures { result ≡ plain_claim }
{
    NetClaim {
        class: NetClass {
            kind: NetKind::Wire,
            charge: 0,
        },
        delays: None,
    }
}

/// Whether a claim is that of a wire without delay.
fn is_plain(claim: NetClaim) -> bool
    ensures { result ≡ is_plain claim }
{
    match claim.class.kind {
        NetKind::Wire => claim.delays.is_none(),
        _ => false,
    }
}

/// So many claims of wires without delay.
fn plain_claims(alloc: Global, count: usize) -> Result<Vec<NetClaim>, AllocError>
    ensures { IfOk result (λ table. table.items ≡ replicate count plain_claim) }
{
    vec![in alloc; plain_claim(); count]
}

/// Takes one more claim, on the net of a number: it counts where none before it on that net did.
fn take_claim(table: &mut Vec<NetClaim>, net: usize, claim: NetClaim)
    ensures { table.new.items ≡ claim_slots table.old.items net claim }
{
    if net < table.len() && is_plain(table[net]) && !is_plain(claim) {
        table[net] = claim;
    }
}

/// What declarations say of each net below a count: the first of the claims on it that isn't a wire
/// without delay, else that.
pub fn net_claims(
    alloc: Global,
    count: usize,
    claims: &[(u32, NetClaim)],
) -> Result<Vec<NetClaim>, AllocError>
    ensures { IfOk result
        (λ of_nets. of_nets.items ≡ map (claim_on claims.now) (range_with_len 0 count)) }
{
    let mut table = plain_claims(alloc, count)?;
    for (net, claim) in claims {
        take_claim(&mut table, *net as usize, *claim);
    }
    Ok(table)
}
