ghost use Rattle.std.specs.Prelude.{◌≡◌, IfOk};

use crate::rows::RowList;
use level_range::Logic;
use std::alloc::{AllocError, Global};
use std::marker::Model;

/// A user-defined primitive (IEEE 1364-2005, clause 8), such as `build` accepts.
#[derive(Debug, Drop)]
pub struct Udp {
    pub(crate) inputs: u8,
    pub(crate) sequential: bool,
    pub(crate) start: Logic,
    pub(crate) rows: RowList,
}

impl Model for Udp {
    ghost use Rattle.udp_table.specs.Primitive.{Primitive};

    ghost Value = { Primitive };

    ghost use Rattle.udp_table.specs.Inside.{primitive_of, IsAcceptedInside};

    ghost view = { primitive_of };

    ghost invariant = { IsAcceptedInside };
}

impl Udp {
    ghost use Rattle.udp_table.specs.Primitive.{IsAccepted};

    /// How many inputs it has, 1 to 10.
    pub fn inputs(&self) -> u8
        ensures value { result ≡ self.now.inputs }
        ensures accepted { IsAccepted self.now }
    {
        self.inputs
    }

    /// Whether it has a state.
    pub fn sequential(&self) -> bool
        ensures { result ≡ self.now.sequential }
    {
        self.sequential
    }

    /// The value with which the state starts.
    pub fn start(&self) -> Logic
        ensures { result ≡ self.now.start }
    {
        self.start
    }

    /// Its rows, in the order in which they were given.
    pub fn rows(&self) -> &RowList
        ensures value { result.now ≡ self.now.rows }
        ensures accepted { IsAccepted self.now }
    {
        &self.rows
    }
    /// An equal primitive. The error is want of memory.
    pub fn copied(&self, alloc: Global) -> Result<Udp, AllocError>
        ensures { IfOk result (λ copy. copy ≡ self.now) }
    {
        Ok(Udp {
            inputs: self.inputs,
            sequential: self.sequential,
            start: self.start,
            rows: self.rows.copied(alloc)?,
        })
    }
}
