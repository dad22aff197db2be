//! The first places of the rules on primitives.
ghost use Rattle.std.specs.Prelude.{◌≡◌, ◌∷◌, [], None, IfOk, if◌then◌else◌, slice_index_or, false};
ghost use Rattle.rule_places.specs.Places.{earliest, first_place};
ghost use Rattle.primitive_rules.specs.Headers.{breaks_header};
ghost use Rattle.primitive_rules.specs.Refusals.{table_places};
ghost use Rattle.primitive_rules.specs.Places.{header_places, primitive_places};
ghost use Rattle.primitive_rules.specs.Walks.{with_udp};

use crate::building::table_place;
use crate::headers::breaks_header;
use rule_places::earliest;
use std::alloc::{AllocError, Global};
use v_tree::{Location, UdpDecl};

/// The first place of each rule on primitives, where it is broken.
#[derive(Clone, Copy, Debug, PartialEq, Eq)]
pub struct PrimitivePlaces {
    /// The first token of a row whose symbols may not stand there, that has two edges or that clashes
    /// with an earlier row; the name of a primitive that hasn't 1 to 10 inputs (IEEE 1364-2005, 8.1.4).
    pub tables: Option<Location>,
    /// The name of a primitive whose header is wrong (IEEE 1364-2005, 8.1.1 to 8.1.3).
    pub headers: Option<Location>,
}

/// The name of a primitive, where its header is wrong.
fn header_place(alloc: Global, udp: &UdpDecl) -> Result<Option<Location>, AllocError>
    ensures { IfOk result (λ place. place ≡ first_place (header_places udp.now)) }
{
    if breaks_header(alloc, udp)? {
        Ok(Some(udp.name.location))
    } else {
        Ok(None)
    }
}

/// Whether the primitive of an index is reached.
fn is_reached(reached: &[bool], index: usize) -> bool
    ensures { result ≡ slice_index_or reached.now index false }
{
    match reached.get(index) {
        Some(reached) => *reached,
        None => false,
    }
}

/// For each rule the earlier of a place and of that in a primitive, where it is reached.
fn with_udp(
    alloc: Global,
    places: PrimitivePlaces,
    is_reached: bool,
    udp: &UdpDecl,
) -> Result<PrimitivePlaces, AllocError>
    ensures { IfOk result (λ more. more ≡ with_udp places is_reached udp.now) }
{
    if !is_reached {
        return Ok(places);
    }
    Ok(PrimitivePlaces {
        tables: earliest(places.tables, table_place(alloc, udp)?),
        headers: earliest(places.headers, header_place(alloc, udp)?),
    })
}

impl PrimitivePlaces {
    /// The first places in the primitives that are reached: for each it is told whether it is.
    pub fn new(
        alloc: Global,
        reached: &[bool],
        udps: &[UdpDecl],
    ) -> Result<PrimitivePlaces, AllocError>
        ensures { IfOk result (λ places. places ≡ primitive_places reached.now udps.now) }
    {
        let mut places = PrimitivePlaces {
            tables: None,
            headers: None,
        };
        for (index, udp) in udps.iter().enumerate() {
            places = with_udp(alloc, places, is_reached(reached, index), udp)?;
        }
        Ok(places)
    }
}
