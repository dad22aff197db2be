//! The flat netlist: nets, elements and islands with their names, its soundness, and its patches.
#![tactic(auto)]

mod copies;
mod flat;
mod grouping;
mod joints;
mod kinds;
mod names;
mod parts;
mod pins;
mod places;
mod sets;
mod soundness;

pub use byte_lists::{Bytes, NameList, NetList};
pub use flat::Flat;
pub use kinds::{Cell, ElementKind, NetKind, Patch};
pub use parts::{
    Drive, DriveList, Element, ElementList, ElementPartList, Find, FindList, Island, IslandList,
    NetPart, NetPartList, Parts, UdpList,
};
pub use soundness::sound;
