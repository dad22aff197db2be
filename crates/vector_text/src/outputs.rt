ghost use Rattle.std.specs.Prelude.{◌≡◌, ◌+◌, ◌≤◌, ◌++◌, length, true, nat_le, Some, IfOk};
ghost use Rattle.flat_net.specs.Soundness.{IsSound};
ghost use Rattle.vector_text.specs.Binding.{bits_of};
ghost use Rattle.vector_text.specs.Flags.{outputs_bound};
ghost use Rattle.vector_text.specs.Lawful.{greatest_outputs};
ghost use Rattle.vector_text.specs.Answers.{Binds};

use crate::fault::BindFault;
use crate::inputs::{GREATEST_PLACES, bit_of, is_unknown};
use byte_lists::{Bytes, NameList, NetList};
use flat_net::Flat;
use std::alloc::{AllocError, Global};

/// The greatest number of output bits.
const GREATEST_OUTPUTS: usize = 1_048_576;

/// Puts the bits of a name behind others. Says whether there are then no more than may be.
fn push_bits(flat: &Flat, name: &[u8], outputs: &mut Vec<u32>) -> Result<bool, AllocError>
    requires sound { IsSound flat.now.parts }
    requires few { length outputs.old.items ≤ greatest_outputs }
    ensures few { IfOk result (λ few. few ≡ nat_le
        (length outputs.old.items + length (bits_of flat.now.parts name.now)) greatest_outputs) }
    ensures bits { IfOk result (λ few. few ≡ true
        → outputs.new.items ≡ outputs.old.items ++ bits_of flat.now.parts name.now) }
{
    for at in 0..GREATEST_PLACES {
        match bit_of(flat, name, at as u32) {
            Some(net) => {
                if outputs.len() >= GREATEST_OUTPUTS {
                    return Ok(false);
                }
                outputs.push(net)?;
            }
            None => return Ok(true),
        }
    }
    Ok(true)
}

/// The output bits of the names of a line, in their order.
fn listed_outputs(
    alloc: Global,
    flat: &Flat,
    line: u64,
    names: &[Bytes],
) -> Result<NetList, BindFault>
    requires { IsSound flat.now.parts }
    ensures { Binds (λ bits. bits) result (outputs_bound flat.now.parts line (Some names.now)) }
{
    let mut outputs = Vec::new(alloc);
    for name in names {
        let name = name.as_slice();
        if is_unknown(flat, name) {
            return Err(BindFault::UnknownNet(line));
        }
        if !push_bits(flat, name, &mut outputs)? {
            return Err(BindFault::Limit(line));
        }
    }
    Ok(NetList::from_vec(outputs))
}

/// The output bits: those of the names of a line, or without one all of the top.
pub fn bound_outputs(
    alloc: Global,
    flat: &Flat,
    line: u64,
    names: &Option<NameList>,
) -> Result<NetList, BindFault>
    requires { IsSound flat.now.parts }
    ensures { Binds (λ bits. bits) result (outputs_bound flat.now.parts line names.now) }
{
    match names {
        Some(names) => listed_outputs(alloc, flat, line, names.as_slice()),
        None => Ok(NetList::from_vec(Vec::from_slice(alloc, flat.outputs().as_slice())?)),
    }
}
