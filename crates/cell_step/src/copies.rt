ghost use Rattle.std.specs.Prelude.{◌≡◌, IfOk};
ghost use Rattle.std.specs.Bool.{Decides};

use crate::lists::NetStateList;
use crate::states::{CellState, ElementState, IslandState, NetState};
use std::alloc::{AllocError, Global};

/// An equal state.
pub fn copy_state(alloc: Global, state: &CellState) -> Result<CellState, AllocError>
    ensures { IfOk result (λ copy. copy ≡ state.now) }
{
    match state {
        CellState::Element(element) => Ok(CellState::Element(*element)),
        CellState::Island(island) => {
            let nets = Vec::from_slice(alloc, island.nets.as_slice())?;
            Ok(CellState::Island(IslandState {
                nets: NetStateList::from_vec(nets),
            }))
        }
    }
}

/// Whether two states of elements are the same in every part.
fn same_element(a: &ElementState, b: &ElementState) -> bool
    ensures { Decides result (a.now ≡ b.now) }
{
    a == b
}

/// Whether two states of nets are the same in every part.
fn same_net(net: &NetState, other: &NetState) -> bool
    ensures { Decides result (net.now ≡ other.now) }
{
    net == other
}

/// Whether two lists of states of nets are the same.
fn same_nets(nets: &[NetState], others: &[NetState]) -> bool
    ensures { Decides result (nets.now ≡ others.now) }
{
    if nets.len() != others.len() {
        return false;
    }
    for place in 0..nets.len() {
        if !same_net(&nets[place], &others[place]) {
            return false;
        }
    }
    true
}

/// Whether two states of cells are the same in every part.
pub fn same_state(a: &CellState, b: &CellState) -> bool
    ensures { Decides result (a.now ≡ b.now) }
{
    match (a, b) {
        (CellState::Element(a), CellState::Element(b)) => same_element(a, b),
        (CellState::Island(a), CellState::Island(b)) => {
            same_nets(a.nets.as_slice(), b.nets.as_slice())
        }
        _ => false,
    }
}
