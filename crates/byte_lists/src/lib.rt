//! Lists of bytes, of names and of numbers, each seen by contracts as a list.
#![tactic(auto)]

mod lists;

pub use lists::{Bytes, NameList, NetList};
