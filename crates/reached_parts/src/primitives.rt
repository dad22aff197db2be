//! The primitives that are reached.
ghost use Rattle.std.specs.Prelude.{◌≡◌, [], ◌∷◌, ◌++◌, length, map, IfOk, OnOk, if◌then◌else◌};
ghost use Rattle.std.specs.List.{items_where_true};
ghost use Rattle.primitive_rules.specs.Arguments.{arguments_of, primitive_of};

use flat_net::UdpList;
use list_of::ListOf;
use primitive_rules::udp_of;
use std::alloc::{AllocError, Global};
use udp_table::Udp;
use v_tree::UdpDecl;

/// A primitive of its declaration. One that is refused counts as want of memory: the rule on tables comes
/// before.
fn primitive_of(alloc: Global, udp: &UdpDecl) -> Result<Udp, AllocError>
    ensures { IfOk result (λ primitive. primitive ≡ primitive_of (arguments_of udp.now)) }
{
    match udp_of(alloc, udp) {
        Ok(primitive) => Ok(primitive),
        Err(_) => Err(AllocError),
    }
}

/// Adds the primitive of a declaration, where its flag is set.
fn push_if(
    alloc: Global,
    primitives: &mut Vec<Udp>,
    is_reached: bool,
    udp: &UdpDecl,
) -> Result<(), AllocError>
    ensures { OnOk result (primitives.new.items ≡ primitives.old.items
        ++ (if is_reached then primitive_of (arguments_of udp.now) ∷ [] else [])) }
{
    if is_reached {
        primitives.push(primitive_of(alloc, udp)?)?;
    }
    Ok(())
}

/// The primitives among these whose flags are set, in their order.
pub fn reached_primitives(
    alloc: Global,
    udps: &[UdpDecl],
    reached: &[bool],
) -> Result<UdpList, AllocError>
    requires { length reached.now ≡ length udps.now }
    ensures { IfOk result (λ primitives. primitives
        ≡ map (λ u. primitive_of (arguments_of u)) (items_where_true reached.now udps.now)) }
{
    let mut primitives = Vec::new(alloc);
    for i in 0..udps.len() {
        push_if(alloc, &mut primitives, reached[i], &udps[i])?;
    }
    Ok(ListOf::from_vec(primitives))
}
