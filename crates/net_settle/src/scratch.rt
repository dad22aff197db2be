ghost use Rattle.std.specs.Prelude.{◌≡◌, ◌≤◌, OnOk, OnErr};

use crate::level::Level;
use std::alloc::{AllocError, Global};
use std::marker::Model;

/// Memory for the bounds of the nets of an island. Contracts see the number of nets for which there is
/// room.
#[derive(Debug, Drop)]
pub struct Scratch {
    pub(crate) lower: Vec<Level>,
    pub(crate) upper: Vec<Level>,
}

impl Model for Scratch {
    ghost use Rattle.std.specs.Prelude.{ℕ, ◌≤◌, length};

    ghost Value = { ℕ };

    ghost view = { λ s. length s.upper.items };

    ghost invariant = { λ s. length s.upper.items ≤ length s.lower.items };
}

impl Scratch {
    /// A scratch without room.
    pub fn new(alloc: Global) -> Scratch
        ensures { result ≡ 0 }
    {
        Scratch {
            lower: Vec::new(alloc),
            upper: Vec::new(alloc),
        }
    }

    /// Makes room for islands of so many nets. Where memory runs out the room is as it was.
    pub fn reserve(&mut self, nets: u32) -> Result<(), AllocError>
        ensures room { OnOk result (nets ≤ self.new) }
        ensures grows { self.old ≤ self.new }
        ensures same { OnErr result (self.new ≡ self.old) }
    {
        let nets = nets as usize;
        if self.lower.len() < nets {
            self.lower.resize(nets, Level::zero(0))?;
        }
        if self.upper.len() < nets {
            self.upper.resize(nets, Level::zero(0))?;
        }
        Ok(())
    }
}
