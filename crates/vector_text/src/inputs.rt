ghost use Rattle.std.specs.Prelude.{◌≡◌, ◌<◌, ◌≤◌, ◌^◌, ◌++◌, take, length, true, false, slice_get, replicate, All, IfOk};
ghost use Rattle.std.specs.List.{list_all};
ghost use Rattle.flat_net.specs.Names.{nets_found};
ghost use Rattle.flat_net.specs.Soundness.{IsSound};
ghost use Rattle.vector_text.specs.Binding.{bits_of, is_unknown, is_net_among, are_new};
ghost use Rattle.vector_text.specs.Flags.{flags_of, inputs_bound};
ghost use Rattle.vector_text.specs.Answers.{Binds};

use crate::fault::BindFault;
use byte_lists::{Bytes, NetList};
use flat_net::Flat;
use std::alloc::{AllocError, Global};

/// The greatest number of bits of a name that have a place.
pub const GREATEST_PLACES: u64 = 1 << 32;

/// The net of a bit of a name, where there is one.
pub fn bit_of(flat: &Flat, name: &[u8], at: u32) -> Option<u32>
    requires { IsSound flat.now.parts }
    ensures { result ≡ slice_get (nets_found flat.now.parts.finds name.now) at }
{
    match str::from_utf8(name) {
        Ok(name) => flat.bit_of(name, at),
        Err(_) => None,
    }
}

/// Whether a name is that of no nets.
pub fn is_unknown(flat: &Flat, name: &[u8]) -> bool
    requires { IsSound flat.now.parts }
    ensures { result ≡ is_unknown flat.now.parts name.now }
{
    bit_of(flat, name, 0).is_none()
}

/// So many flags, none set.
fn no_flags(alloc: Global, count: u32) -> Result<Vec<bool>, AllocError>
    ensures { IfOk result (λ flags. flags.items ≡ replicate count false) }
{
    vec![in alloc; false; count as usize]
}

/// For each of so many nets, whether it is among these.
fn net_flags(alloc: Global, count: u32, nets: &[u32]) -> Result<Vec<bool>, AllocError>
    requires { All (λ net. net < count) nets.now }
    ensures { IfOk result (λ flags. flags.items ≡ flags_of nets.now count) }
{
    let mut flags = no_flags(alloc, count)?;
    for net in nets {
        flags[*net as usize] = true;
    }
    Ok(flags)
}

/// Whether each bit of a name is an input.
fn are_inputs(flat: &Flat, inputs: &[bool], name: &[u8]) -> bool
    requires sound { IsSound flat.now.parts }
    requires flags { inputs.now ≡ flags_of flat.now.parts.inputs (length flat.now.parts.nets) }
    ensures { result
        ≡ list_all (is_net_among flat.now.parts.inputs) (bits_of flat.now.parts name.now) }
{
    for at in 0..GREATEST_PLACES {
        match bit_of(flat, name, at as u32) {
            Some(net) if inputs[net as usize] => {}
            Some(_) => return false,
            None => return true,
        }
    }
    true
}

/// Lists the bits of a name behind others, which the flags tell. Says whether all were new.
fn list_bits(
    flat: &Flat,
    listed: &mut [bool],
    name: &[u8],
    bits: &mut Vec<u32>,
) -> Result<bool, AllocError>
    requires sound { IsSound flat.now.parts }
    requires flags { listed.old ≡ flags_of bits.old.items (length flat.now.parts.nets) }
    ensures new { IfOk result (λ new. new
        ≡ are_new bits.old.items (bits_of flat.now.parts name.now)) }
    ensures bits { IfOk result (λ new. new ≡ true
        → bits.new.items ≡ bits.old.items ++ bits_of flat.now.parts name.now) }
    ensures listed { IfOk result (λ new. new ≡ true
        → listed.new ≡ flags_of bits.new.items (length flat.now.parts.nets)) }
{
    for at in 0..GREATEST_PLACES {
        match bit_of(flat, name, at as u32) {
            Some(net) => {
                if listed[net as usize] {
                    return Ok(false);
                }
                listed[net as usize] = true;
                bits.push(net)?;
            }
            None => return Ok(true),
        }
    }
    Ok(true)
}

/// The input bits of the names of a line, in their order.
pub fn bound_inputs(
    alloc: Global,
    flat: &Flat,
    line: u64,
    names: &[Bytes],
) -> Result<NetList, BindFault>
    ensures { Binds (λ bits. bits) result (inputs_bound flat.now.parts line names.now) }
{
    let count = flat.net_count();
    let inputs = net_flags(alloc, count, flat.inputs().as_slice())?;
    let mut listed = net_flags(alloc, count, &[])?;
    let mut bits = Vec::new(alloc);
    for name in names {
        let name = name.as_slice();
        if is_unknown(flat, name) {
            return Err(BindFault::UnknownNet(line));
        }
        if !are_inputs(flat, &inputs, name) {
            return Err(BindFault::NotAnInput(line));
        }
        if !list_bits(flat, &mut listed, name, &mut bits)? {
            return Err(BindFault::NamedTwice(line));
        }
    }
    Ok(NetList::from_vec(bits))
}
