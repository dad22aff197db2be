//! What a flattening adds, with the islands of its nets.
ghost use Rattle.std.specs.Prelude.{◌≡◌, ◌≤◌, length, IfOk};
ghost use Rattle.std.specs.List.{All, list_any};
ghost use Rattle.flat_assembly.specs.Assembly.{flat_parts};
ghost use Rattle.flat_net.specs.Soundness.{greatest_count};
ghost use Rattle.flattening.specs.Lists.{all_in};
ghost use Rattle.net_islands.specs.Islands.{HasNets};
ghost use Rattle.netlist_meaning.specs.Limits.{is_large, islands_of};
ghost use Rattle.netlist_meaning.specs.Netlist.{first_wired};

use crate::nets::{classes, net_parts};
use crate::wired::first_wired;
use byte_lists::NetList;
use delay_rule::Delays;
use flat_net::{Island, Parts, UdpList};
use flattening::{FlatLists, net_claims};
use list_of::ListOf;
use net_islands::{Grouping, grouping};
use netlist_plan::NetClaim;
use std::alloc::{AllocError, Global};
use std::marker::Model;
use v_tree::Location;

/// How many nets an island may have.
const GREATEST_ISLAND: usize = 65_536;

/// What a flattening adds, with what declarations make of each net, and the islands of the nets. Contracts
/// see what the flattening adds.
#[derive(Debug, Drop)]
pub struct Assembly {
    flat: FlatLists,
    claims: Vec<NetClaim>,
    grouping: Grouping,
}

impl Model for Assembly {
    ghost use Rattle.netlist_plan.specs.Additions.{Additions};

    ghost Value = { Additions };

    ghost use Rattle.netlist_assembly.specs.Assembled.{IsAssembled, additions};

    ghost view = { additions };

    ghost invariant = { IsAssembled };
}

/// Whether an island has more than 65,536 nets.
fn is_large(island: &Island) -> bool
    ensures { result ≡ is_large island.now }
{
    island.nets.as_slice().len() > GREATEST_ISLAND
}

/// Whether one of these islands has.
fn has_large(islands: &[Island]) -> bool
    ensures { result ≡ list_any is_large islands.now }
{
    islands.iter().any(is_large)
}

impl Assembly {
    /// The assembly of what a flattening adds, each of whose elements has nets that are there. It takes time
    /// and memory in proportion to that.
    pub fn new(alloc: Global, flat: FlatLists) -> Result<Assembly, AllocError>
        requires few_nets { length flat.net_names ≤ greatest_count }
        requires few_elements { length flat.elements ≤ greatest_count }
        requires elements { All (HasNets (length flat.net_names)) flat.elements }
        requires resistive { length flat.resistive ≡ length flat.elements }
        ensures { IfOk result (λ assembly. assembly ≡ all_in flat) }
    {
        let claims = net_claims(
            alloc,
            flat.net_names.as_slice().len(),
            flat.claims.as_slice(),
        )?;
        let classes = classes(alloc, &claims)?;
        let grouping = grouping(
            alloc,
            &classes,
            flat.elements.as_slice(),
            flat.resistive.as_slice(),
        )?;
        Ok(Assembly {
            flat,
            claims,
            grouping,
        })
    }

    /// Whether an island has more than 65,536 nets.
    pub fn has_large_island(&self) -> bool
        ensures { result ≡ list_any is_large (islands_of self.now) }
    {
        has_large(self.grouping.islands.as_slice())
    }

    /// The first terminal of a bidirectional switch that is a wired net.
    pub fn first_wired(&self) -> Option<Location>
        ensures { result ≡ first_wired self.now }
    {
        first_wired(&self.claims, self.flat.terminals.as_slice())
    }

    /// The parts of the flat netlist with these primitives, inputs and outputs, where a net without delay
    /// has these delays.
    pub fn into_parts(
        self,
        alloc: Global,
        none: Delays,
        udps: UdpList,
        inputs: NetList,
        outputs: NetList,
    ) -> Result<Parts, AllocError>
        ensures { IfOk result (λ parts. parts ≡ flat_parts none udps inputs outputs self) }
    {
        let Assembly {
            flat,
            claims,
            grouping,
        } = self;
        let nets = net_parts(alloc, none, &claims, grouping.places.as_slice())?;
        Ok(Parts {
            nets: ListOf::from_vec(nets),
            elements: flat.elements,
            islands: grouping.islands,
            udps,
            net_names: flat.net_names,
            element_names: flat.element_names,
            finds: flat.finds,
            inputs,
            outputs,
        })
    }
}
