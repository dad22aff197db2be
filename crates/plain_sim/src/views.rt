//! What cells read of the states of a plain run.
ghost use Rattle.std.specs.Prelude.{◌≡◌, ◌<◌, length};
ghost use Rattle.plain_sim.specs.Lists.{HasElements, HasNets, AreForcedNets, net_among, read_by_islands, read_by_elements};

use cell_step::{CellState, NetState, View, conduct_of, drive_of};
use flat_net::{Cell, Flat};
use level_range::{Conduct, Range};

/// What islands read: the states of the elements, and the input in force at each net.
#[derive(Drop)]
pub(crate) struct IslandView<'a> {
    pub(crate) flat: &'a Flat,
    pub(crate) elements: &'a [CellState],
    pub(crate) forced: &'a [Range],
    ghost states: { HasElements flat.now.parts elements.now },
    ghost inputs: { AreForcedNets flat.now.parts forced.now },
}

impl View for IslandView<'_> {
    ghost netlist = { λ v. v.flat.now };

    ghost readings = { λ v. read_by_islands v.flat.now v.elements.now v.forced.now };

    fn drive(&self, element: u32, pin: u32) -> Range {
        let patch = self.flat.patch(Cell::Element(element));
        match &self.elements[element as usize] {
            CellState::Element(state) => drive_of(self.flat, element, patch, pin, state),
            CellState::Island(_) => unreachable!(),
        }
    }

    fn conduct(&self, element: u32) -> Conduct {
        let patch = self.flat.patch(Cell::Element(element));
        match &self.elements[element as usize] {
            CellState::Element(state) => conduct_of(patch, state),
            CellState::Island(_) => unreachable!(),
        }
    }

    fn seen(&self, _net: u32) -> Range {
        Range::new(0, 0)
    }

    fn input(&self, net: u32) -> Range {
        self.forced[net as usize]
    }
}

/// What elements read: the states of the islands.
#[derive(Drop)]
pub(crate) struct ElementView<'a> {
    pub(crate) flat: &'a Flat,
    pub(crate) islands: &'a [CellState],
    ghost states: { HasNets flat.now.parts islands.now },
}

impl View for ElementView<'_> {
    ghost netlist = { λ v. v.flat.now };

    ghost readings = { λ v. read_by_elements v.flat.now v.islands.now };

    fn drive(&self, _element: u32, _pin: u32) -> Range {
        Range::new(0, 0)
    }

    fn conduct(&self, _element: u32) -> Conduct {
        Conduct::Off
    }

    fn seen(&self, net: u32) -> Range {
        net_of(self.flat, self.islands, net).seen
    }

    fn input(&self, _net: u32) -> Range {
        Range::new(0, 0)
    }
}

/// The state of a net, which stands at its place in its island.
pub(crate) fn net_of(flat: &Flat, islands: &[CellState], net: u32) -> NetState
    requires net { net < length flat.now.parts.nets }
    requires states { HasNets flat.now.parts islands.now }
    ensures { result ≡ net_among flat.now.parts islands.now net }
{
    let part = flat.net(net);
    match &islands[part.island as usize] {
        CellState::Island(state) => state.nets.at(part.place as usize),
        CellState::Element(_) => unreachable!(),
    }
}
