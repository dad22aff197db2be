//! The nets of a plan.
ghost use Rattle.std.specs.Prelude.{◌≡◌, map, IfOk};
ghost use Rattle.netlist_plan.specs.Plan.{literal_net, named_net, plan_net};

use crate::names::copied_name;
use crate::numbers::plan_number;
use element_forms::net_class;
use flat_net::NetKind;
use module_scope::{Scope, ScopeNet};
use net_islands::NetClass;
use netlist_plan::{ModuleNet, NetSource, OwnName, PlanNet, PlanNetList};
use sqlite_items::Items;
use std::alloc::{AllocError, Global};
use v_tree::RangeBounds;

/// A wire without charge.
fn wire() -> NetClass
    ensures { result ≡ record { kind = NetKind.Wire; charge = 0 } }
{
    NetClass {
        kind: NetKind::Wire,
        charge: 0,
    }
}

/// The net of a name. A name without a net counts as a scalar wire.
fn named_net(
    alloc: Global,
    name: &[u8],
    first: u32,
    net: Option<ScopeNet>,
) -> Result<PlanNet, AllocError>
    ensures { IfOk result (λ made. made ≡ named_net name.now first net) }
{
    let name = OwnName::Written(copied_name(alloc, name)?);
    match net {
        Some(net) => Ok(PlanNet {
            name,
            range: net.range,
            class: net_class(net.kind),
            delay: net.delay,
            first,
        }),
        None => Ok(PlanNet {
            name,
            range: None,
            class: wire(),
            delay: None,
            first,
        }),
    }
}

/// The net of a literal of a number and a width.
fn literal_net(number: usize, width: usize, first: u32) -> Result<PlanNet, AllocError>
    ensures { IfOk result (λ made. made ≡ literal_net number width first) }
{
    let left = plan_number(width.saturating_sub(1) as u64)?;
    Ok(PlanNet {
        name: OwnName::Unnamed(plan_number(number as u64)?),
        range: Some(RangeBounds { left, right: 0 }),
        class: wire(),
        delay: None,
        first,
    })
}

/// The net of the plan that a module's net is.
fn plan_net(alloc: Global, scope: &Scope, net: &ModuleNet) -> Result<PlanNet, AllocError>
    ensures { IfOk result (λ made. made ≡ plan_net scope.now net.now) }
{
    let first = plan_number(net.first)?;
    match &net.source {
        NetSource::Named(name) => {
            let name = name.as_slice();
            named_net(alloc, name, first, scope.net_of(name))
        }
        NetSource::Literal(number, bits) => literal_net(*number, bits.as_slice().len(), first),
    }
}

/// The nets of the plan.
pub fn plan_nets(
    alloc: Global,
    scope: &Scope,
    nets: &[ModuleNet],
) -> Result<PlanNetList, AllocError>
    ensures { IfOk result (λ made. made ≡ map (plan_net scope.now) nets.now) }
{
    let mut made = Items::new(alloc);
    for net in nets {
        made.push(plan_net(alloc, scope, net)?)?;
    }
    Ok(made)
}
