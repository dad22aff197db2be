//! Names in a plan.
ghost use Rattle.std.specs.Prelude.{◌≡◌, [], IfOk};
ghost use Rattle.std.specs.Option.{option_map_or};
ghost use Rattle.netlist_plan.specs.Elements.{gate_name};

use byte_lists::Bytes;
use netlist_plan::OwnName;
use std::alloc::{AllocError, Global};

/// A copy of a name.
pub fn copied_name(alloc: Global, name: &[u8]) -> Result<Bytes, AllocError>
    ensures { IfOk result (λ copy. copy ≡ name.now) }
{
    Ok(Bytes::from_vec(Vec::from_slice(alloc, name)?))
}

/// The name of a gate, or the number that it has where it has none.
pub fn gate_name(alloc: Global, number: u32, name: &Option<Bytes>) -> Result<OwnName, AllocError>
    ensures { IfOk result (λ own. own ≡ gate_name number name.now) }
{
    match name {
        Some(name) => Ok(OwnName::Written(copied_name(alloc, name.as_slice())?)),
        None => Ok(OwnName::Unnamed(number)),
    }
}

/// The name of an instance, and no bytes where it has none.
pub fn instance_name(alloc: Global, name: &Option<Bytes>) -> Result<Bytes, AllocError>
    ensures { IfOk result (λ text. text ≡ option_map_or (λ written. written) name.now []) }
{
    match name {
        Some(name) => copied_name(alloc, name.as_slice()),
        None => Ok(Bytes::from_vec(Vec::new(alloc))),
    }
}
