use flat_net::{IslandList, NetKind};
use list_of::ListOf;

/// What a net is before its island is known: its type, and the level of its charge (1, 2 or 4 on a
/// trireg, else 0).
#[derive(Clone, Copy, Debug)]
pub struct NetClass {
    pub kind: NetKind,
    pub charge: u8,
}

/// The number of the island in which a net stands, and its place there.
#[derive(Clone, Copy, Debug, PartialEq, Eq)]
pub struct NetPlace {
    pub island: u32,
    pub place: u32,
}

/// The places of nets, by their numbers.
pub type PlaceList = ListOf<NetPlace>;

/// The islands of a netlist, and where each net stands.
#[derive(Debug, Drop)]
pub struct Grouping {
    pub places: PlaceList,
    pub islands: IslandList,
}
