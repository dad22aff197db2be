use crate::kinds::{ElementKind, NetKind};
use byte_lists::{Bytes, NameList, NetList};
use delay_rule::Delays;
use list_of::ListOf;
use net_settle::Shape;
use udp_table::Udp;

/// A net: its type, the level of its charge (1, 2 or 4 on a trireg, else 0), its delays in ticks, the
/// island in which it stands, and its place there.
#[derive(Clone, Copy, Debug)]
pub struct NetPart {
    pub kind: NetKind,
    pub charge: u8,
    pub delays: Delays,
    pub island: u32,
    pub place: u32,
}

/// An element: its kind, its strengths for 0 and for 1 (levels 0 to 7), its delays in ticks, and the
/// nets of its pins.
///
/// Pins are numbered from 0 through `outs` and then `ins`. A bidirectional switch has two `ends`
/// in place of outputs, which are its pins 0 and 1.
#[derive(Debug, Drop)]
pub struct Element {
    pub kind: ElementKind,
    pub s0: u8,
    pub s1: u8,
    pub delays: Delays,
    pub outs: NetList,
    pub ins: NetList,
    pub ends: Option<(u32, u32)>,
}

/// An output pin of an element, and the place in its island of the net that it drives.
#[derive(Clone, Copy, Debug, PartialEq, Eq)]
pub struct Drive {
    pub element: u32,
    pub pin: u32,
    pub place: u32,
}

/// An island: a net, or the nets that bidirectional switches join; the output pins that drive them;
/// the elements that join them; and how these settle.
#[derive(Debug, Drop)]
pub struct Island {
    pub nets: NetList,
    pub drives: DriveList,
    pub links: ElementList,
    pub shape: Shape,
}

/// A name by which nets are found: its bits, from the left.
#[derive(Debug, Drop)]
pub struct Find {
    pub name: Bytes,
    pub nets: NetList,
}

/// Nets, by their numbers.
pub type NetPartList = ListOf<NetPart>;

/// Elements, by their numbers.
pub type ElementPartList = ListOf<Element>;

/// Numbers of elements.
pub type ElementList = ListOf<u32>;

/// Output pins that drive nets.
pub type DriveList = ListOf<Drive>;

/// Islands, by their numbers.
pub type IslandList = ListOf<Island>;

/// User-defined primitives, by their numbers.
pub type UdpList = ListOf<Udp>;

/// Names by which nets are found.
pub type FindList = ListOf<Find>;

/// The parts of a flat netlist. `inputs` are the bits of the input and inout ports of the top in port
/// order, `outputs` those of its output and inout ports.
#[derive(Debug, Drop)]
pub struct Parts {
    pub nets: NetPartList,
    pub elements: ElementPartList,
    pub islands: IslandList,
    pub udps: UdpList,
    pub net_names: NameList,
    pub element_names: NameList,
    pub finds: FindList,
    pub inputs: NetList,
    pub outputs: NetList,
}
