//! Plans of two modules: a cell with a gate and a half of a switch, and a top with two of it.
use byte_lists::Bytes;
use delay_rule::Delays;
use element_forms::Strengths;
use flat_net::{ElementKind, NetKind};
use flattening::ItemDelays;
use level_range::Logic;
use list_of::ListOf;
use logic_tables::FoldKind;
use net_islands::NetClass;
use netlist_plan::*;
use sqlite_items::Items;
use std::alloc::{AllocError, Global};
use v_tree::RangeBounds;

fn name(alloc: Global, text: &[u8]) -> Result<Bytes, AllocError> {
    Ok(Bytes::from_vec(Vec::from_slice(alloc, text)?))
}

fn bits(alloc: Global, bits: &[u32]) -> Result<BitList, AllocError> {
    Ok(ListOf::from_vec(Vec::from_slice(alloc, bits)?))
}

fn range(left: u32, right: u32) -> Option<RangeBounds> {
    Some(RangeBounds { left, right })
}

/// A wire without delay.
fn wire(
    alloc: Global,
    text: &[u8],
    range: Option<RangeBounds>,
    first: u32,
) -> Result<PlanNet, AllocError> {
    Ok(PlanNet {
        name: OwnName::Written(name(alloc, text)?),
        range,
        class: NetClass {
            kind: NetKind::Wire,
            charge: 0,
        },
        delay: None,
        first,
    })
}

fn port(alloc: Global, port: usize, list: &[u32]) -> Result<PortBits, AllocError> {
    Ok(PortBits {
        port,
        bits: bits(alloc, list)?,
    })
}

/// An element with one output.
fn element(
    alloc: Global,
    name: ElementName,
    kind: ElementKind,
    item: Option<usize>,
    out: u32,
    ins: &[u32],
) -> Result<PlanElement, AllocError> {
    Ok(PlanElement {
        name,
        kind,
        strengths: Strengths { zero: 5, one: 3 },
        item,
        resistive: false,
        outs: bits(alloc, &[out])?,
        ins: bits(alloc, ins)?,
        ends: None,
    })
}

/// The nets of the cell: `y`, `a[1:0]` and the trireg `k`.
fn cell_nets(alloc: Global) -> Result<PlanNetList, AllocError> {
    let mut nets = Items::new(alloc);
    nets.push(wire(alloc, b"y", None, 0)?)?;
    nets.push(wire(alloc, b"a", range(1, 0), 1)?)?;
    let mut charged = wire(alloc, b"k", None, 3)?;
    charged.class = NetClass {
        kind: NetKind::Trireg,
        charge: 2,
    };
    charged.delay = Some(0);
    nets.push(charged)?;
    Ok(nets)
}

/// A gate without name and a half of the switch `sw`.
fn cell_steps(alloc: Global) -> Result<PlanStepList, AllocError> {
    let mut steps = Items::new(alloc);
    let gate = ElementName::Gate(OwnName::Unnamed(0));
    let and = ElementKind::Fold(FoldKind::And);
    steps.push(PlanStep::Element(element(alloc, gate, and, Some(1), 0, &[1, 2])?))?;
    let half = ElementName::Half(OwnName::Written(name(alloc, b"sw")?), true);
    let mos = ElementKind::Mos {
        on_one: true,
        resistive: true,
    };
    let mut switch = element(alloc, half, mos, None, 0, &[2, 3])?;
    switch.resistive = true;
    switch.ends = Some((1, 3));
    steps.push(PlanStep::Element(switch))?;
    Ok(steps)
}

fn cell(alloc: Global) -> Result<ModulePlan, AllocError> {
    let mut ports = Items::new(alloc);
    ports.push(port(alloc, 0, &[0])?)?;
    ports.push(port(alloc, 1, &[1, 2])?)?;
    Ok(ModulePlan {
        nets: cell_nets(alloc)?,
        ports,
        steps: cell_steps(alloc)?,
        terminals: ListOf::from_vec(Vec::new(alloc)),
    })
}

/// The nets of the top: `o`, `i[1:2]` and a literal of one bit.
fn top_nets(alloc: Global) -> Result<PlanNetList, AllocError> {
    let mut nets = Items::new(alloc);
    nets.push(wire(alloc, b"o", None, 0)?)?;
    nets.push(wire(alloc, b"i", range(1, 2), 1)?)?;
    let mut literal = wire(alloc, b"", range(0, 0), 3)?;
    literal.name = OwnName::Unnamed(0);
    nets.push(literal)?;
    Ok(nets)
}

/// An instance of the cell.
fn instance(alloc: Global, text: &[u8], outs: &[u32], ins: &[u32]) -> Result<PlanStep, AllocError> {
    let mut connections = Items::new(alloc);
    connections.push(port(alloc, 0, outs)?)?;
    connections.push(port(alloc, 1, ins)?)?;
    Ok(PlanStep::Instance(PlanInstance {
        master: 0,
        name: name(alloc, text)?,
        connections,
    }))
}

/// The constant of the literal, and two cells, of which one has `a[0]` open.
fn top_steps(alloc: Global) -> Result<PlanStepList, AllocError> {
    let mut steps = Items::new(alloc);
    let constant = ElementKind::Constant(Logic::One);
    let literal = ElementName::Bit(0, 0);
    steps.push(PlanStep::Element(element(alloc, literal, constant, None, 3, &[])?))?;
    steps.push(instance(alloc, b"u", &[0], &[2, 1])?)?;
    steps.push(instance(alloc, b"1", &[0], &[3])?)?;
    Ok(steps)
}

/// The plans of the cell and of the top.
pub(crate) fn plans(alloc: Global) -> Result<Vec<ModulePlan>, AllocError> {
    let mut plans = Vec::new(alloc);
    plans.push(cell(alloc)?)?;
    plans.push(ModulePlan {
        nets: top_nets(alloc)?,
        ports: Items::new(alloc),
        steps: top_steps(alloc)?,
        terminals: ListOf::from_vec(Vec::new(alloc)),
    })?;
    Ok(plans)
}

/// The delays of the cell's two items, and no delays.
pub(crate) fn delays(alloc: Global) -> Result<ItemDelays, AllocError> {
    let mut list = Vec::new(alloc);
    list.push(Delays {
        count: 3,
        d: [4, 5, 6],
    })?;
    list.push(Delays {
        count: 1,
        d: [9, 0, 0],
    })?;
    let mut by_module = Items::new(alloc);
    by_module.push(ListOf::from_vec(list))?;
    Ok(ItemDelays {
        by_module,
        none: Delays {
            count: 0,
            d: [0, 0, 0],
        },
    })
}
