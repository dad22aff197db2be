ghost use Rattle.std.specs.Prelude.{◌≡◌, OnOk};
ghost use Rattle.first_netlist.specs.Declarations.{module_view, with_item};

use byte_lists::{Bytes, NameList};
use std::alloc::AllocError;
use std::marker::Model;

/// What a port is for.
#[derive(Clone, Copy)]
pub enum Direction {
    Input,
    Output,
}

/// A nand gate: its name where it has one, and the names at its terminals.
#[derive(Drop)]
pub struct Instance {
    pub name: Option<Bytes>,
    pub output: Bytes,
    pub inputs: NameList,
}

/// Instances in their order. Contracts see the list of them.
#[derive(Drop)]
pub struct InstanceList {
    instances: Vec<Instance>,
}

impl Model for InstanceList {
    ghost use Rattle.std.specs.Prelude.{List};
    ghost use Rattle.first_netlist.specs.declared.tree.Instance.{Instance};

    ghost Value = { List Instance };

    ghost view = { λ i. i.instances.items };
}

impl InstanceList {
    /// The instances of a vector, which is kept.
    pub fn from_vec(instances: Vec<Instance>) -> InstanceList
        ensures { result ≡ instances.items }
    {
        InstanceList { instances }
    }

    /// The vector that holds the instances.
    pub fn into_vec(self) -> Vec<Instance>
        ensures { result.items ≡ self }
    {
        self.instances
    }
}

/// An item of a module.
#[derive(Drop)]
pub enum Item {
    /// A declaration of ports.
    Ports(Direction, NameList),
    /// A declaration of wires.
    Wires(NameList),
    /// Nand gates.
    Gates(InstanceList),
}

/// A module: its header, and what its items declare, by kind and in text order.
#[derive(Drop)]
pub struct Module {
    pub header: Vec<Bytes>,
    pub inputs: Vec<Bytes>,
    pub outputs: Vec<Bytes>,
    pub wires: Vec<Bytes>,
    pub gates: Vec<Instance>,
}

/// Adds what an item declares.
pub fn add_item(module: &mut Module, item: Item) -> Result<(), AllocError>
    ensures { OnOk result (module_view «module».new ≡ with_item (module_view «module».old) item) }
{
    match item {
        Item::Ports(Direction::Input, names) => module.inputs.append(&mut names.into_vec())?,
        Item::Ports(Direction::Output, names) => module.outputs.append(&mut names.into_vec())?,
        Item::Wires(names) => module.wires.append(&mut names.into_vec())?,
        Item::Gates(instances) => module.gates.append(&mut instances.into_vec())?,
    }
    Ok(())
}
