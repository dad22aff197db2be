//! What grows as a hierarchy is written out.
ghost use Rattle.std.specs.Prelude.{◌≡◌};
ghost use Rattle.netlist_plan.specs.Additions.{nothing};
ghost use Rattle.flattening.specs.Lists.{all_in, so_far};

use byte_lists::{Bytes, NameList};
use flat_net::{Element, ElementPartList, Find, FindList};
use list_of::ListOf;
use netlist_plan::NetClaim;
use std::alloc::Global;
use v_tree::Location;

/// Numbers of nets, each with what a declaration says of that net.
pub type ClaimList = ListOf<(u32, NetClaim)>;

/// Numbers of nets, each with the first token of a terminal at which it is.
pub type TerminalList = ListOf<(u32, Location)>;

/// A flag for each of some things.
pub type FlagList = ListOf<bool>;

/// A hierarchy that is written out: the names of nets, by their numbers; what declarations say of nets,
/// in the order of elaboration; elements by their numbers, with their names, and for each whether it is
/// resistive; what finds nets; and the nets at terminals of bidirectional switches.
#[derive(Debug, Drop)]
pub struct FlatLists {
    pub net_names: NameList,
    pub claims: ClaimList,
    pub elements: ElementPartList,
    pub element_names: NameList,
    pub resistive: FlagList,
    pub finds: FindList,
    pub terminals: TerminalList,
}

/// The same, as it grows.
#[derive(Debug, Drop)]
pub struct Growth {
    pub net_names: Vec<Bytes>,
    pub claims: Vec<(u32, NetClaim)>,
    pub elements: Vec<Element>,
    pub element_names: Vec<Bytes>,
    pub resistive: Vec<bool>,
    pub finds: Vec<Find>,
    pub terminals: Vec<(u32, Location)>,
}

/// Nothing so far.
pub fn no_growth(alloc: Global) -> Growth
    ensures { so_far result ≡ nothing }
{
    Growth {
        net_names: Vec::new(alloc),
        claims: Vec::new(alloc),
        elements: Vec::new(alloc),
        element_names: Vec::new(alloc),
        resistive: Vec::new(alloc),
        finds: Vec::new(alloc),
        terminals: Vec::new(alloc),
    }
}

/// All that there is so far.
pub fn all_of(growth: Growth) -> FlatLists
    ensures { all_in result ≡ so_far growth }
{
    FlatLists {
        net_names: NameList::from_vec(growth.net_names),
        claims: ListOf::from_vec(growth.claims),
        elements: ListOf::from_vec(growth.elements),
        element_names: NameList::from_vec(growth.element_names),
        resistive: ListOf::from_vec(growth.resistive),
        finds: ListOf::from_vec(growth.finds),
        terminals: ListOf::from_vec(growth.terminals),
    }
}
