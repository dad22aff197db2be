//! The widths of nets.
ghost use Rattle.std.specs.Prelude.{◌≡◌};
ghost use Rattle.netlist_plan.specs.Nets.{bit_count, source_width};

use item_parts::name_width;
use module_scope::Scope;
use netlist_plan::{ModuleNet, NetSource};

/// How many bits a net has. A name without a net counts as a scalar.
fn source_width(scope: &Scope, source: &NetSource) -> u64
    ensures { result ≡ source_width scope.now source.now }
{
    match source {
        NetSource::Named(name) => name_width(scope, name.as_slice(), None),
        NetSource::Literal(_, bits) => bits.as_slice().len() as u64,
    }
}

/// How many bits nets have together.
pub fn bit_count(scope: &Scope, nets: &[ModuleNet]) -> u128
    ensures { result ≡ bit_count scope.now nets.now }
{
    let mut bits: u128 = 0;
    for net in nets {
        bits += u128::from(source_width(scope, &net.source));
    }
    bits
}
