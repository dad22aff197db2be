//! One cell of a machine: the states of elements and islands, their start, and their part in a pass.
#![tactic(auto)]

mod bench;
mod changes;
mod copies;
mod elements;
mod gates;
mod island_cells;
mod islands;
mod lists;
mod nets;
mod outputs;
mod pins;
mod primitives;
mod starts;
mod states;
mod steps;
mod view;

pub use bench::Bench;
pub use changes::mature;
pub use copies::{copy_state, same_state};
pub use elements::element_step;
pub use island_cells::{island_step, start_island};
pub use lists::NetStateList;
pub use outputs::{conduct_of, drive_of};
pub use starts::start_element;
pub use states::{CellState, ElementState, IslandState, NetState, PassEnd, Timer};
pub use steps::Steps;
pub use view::View;
