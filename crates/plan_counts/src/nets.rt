//! How many bits the nets of a plan have.
ghost use Rattle.std.specs.Prelude.{◌≡◌, map, IfOk};
ghost use Rattle.item_parts.specs.Widths.{range_width};
ghost use Rattle.netlist_plan.specs.Plan.{plan_net};
ghost use Rattle.netlist_plan.specs.Flattening.{bit_count};

use crate::sums::sum_of;
use item_parts::name_width;
use module_scope::Scope;
use netlist_plan::{ModuleNet, NetSource};
use std::alloc::AllocError;

/// How many bits a net of a plan has. A name without a net and a literal without bits count as a
/// scalar.
fn net_bits(scope: &Scope, net: &ModuleNet) -> u64
    ensures { result ≡ range_width (plan_net scope.now net.now).range }
{
    match &net.source {
        NetSource::Named(name) => name_width(scope, name.as_slice(), None),
        NetSource::Literal(_, bits) => bits.as_slice().len().max(1) as u64,
    }
}

/// How many bits the nets of a plan have together.
pub fn plan_bits(scope: &Scope, nets: &[ModuleNet]) -> Result<u64, AllocError>
    ensures { IfOk result (λ bits. bits ≡ bit_count (map (plan_net scope.now) nets.now)) }
{
    let mut bits = 0;
    for net in nets {
        bits = sum_of(bits, net_bits(scope, net))?;
    }
    Ok(bits)
}
