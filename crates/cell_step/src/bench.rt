ghost use Rattle.std.specs.Prelude.{◌≡◌, ◌≤◌, ℕ, length, max, OnOk, OnErr};

use level_range::{Conduct, Range};
use net_settle::Scratch;
use std::alloc::{AllocError, Global};
use std::marker::Model;

/// Memory for the lists that one island needs to settle. Contracts see for how many nets and how many
/// links there is room.
#[derive(Debug, Drop)]
pub struct Bench {
    pub(crate) own: Vec<Range>,
    pub(crate) on: Vec<Conduct>,
    pub(crate) charges: Vec<Range>,
    pub(crate) driven: Vec<Range>,
    pub(crate) out: Vec<Range>,
    pub(crate) scratch: Scratch,
}

impl Model for Bench {
    ghost use Rattle.cell_step.specs.Rooms.{Room, BenchInside, room_of};

    ghost Value = { Room };

    ghost view = { room_of };

    ghost invariant = { BenchInside };
}

/// Makes a list as long as a number, where it is shorter.
fn grow<T: Copy + Drop>(list: &mut Vec<T>, count: usize, filler: T) -> Result<(), AllocError>
    ensures ok { OnOk result (length list.new.items ≡ max (length list.old.items) count) }
    ensures err { OnErr result (length list.new.items ≡ length list.old.items) }
{
    if list.len() < count {
        list.resize(count, filler)?;
    }
    Ok(())
}

impl Bench {
    /// A bench without room.
    pub fn new(alloc: Global) -> Bench
        ensures nets { result.nets ≡ 0 }
        ensures links { result.links ≡ 0 }
    {
        Bench {
            own: Vec::new(alloc),
            on: Vec::new(alloc),
            charges: Vec::new(alloc),
            driven: Vec::new(alloc),
            out: Vec::new(alloc),
            scratch: Scratch::new(alloc),
        }
    }

    /// Makes room for islands of so many nets and links. Where memory runs out no room is lost.
    pub fn reserve(&mut self, nets: u32, links: u32) -> Result<(), AllocError>
        ensures nets { OnOk result (nets ≤ self.new.nets) }
        ensures links { OnOk result (links ≤ self.new.links) }
        ensures more_nets { self.old.nets ≤ self.new.nets }
        ensures more_links { self.old.links ≤ self.new.links }
    {
        let z = Range::new(0, 0);
        let count = nets as usize;
        self.scratch.reserve(nets)?;
        grow(&mut self.charges, count, z)?;
        grow(&mut self.driven, count, z)?;
        grow(&mut self.out, count, z)?;
        grow(&mut self.on, links as usize, Conduct::Off)?;
        grow(&mut self.own, count, z)
    }
}
