//! Settling of the nets that bidirectional switches join, with unknown switches and stored charge.
#![tactic(auto)]

mod charge;
mod island;
mod level;
mod scratch;
mod shape;
mod side;
mod spread;

pub use island::settle;
pub use scratch::Scratch;
pub use shape::{KindList, LevelList, Link, LinkList, Shape};
