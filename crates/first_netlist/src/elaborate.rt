//! From declarations to a netlist.
ghost use Rattle.std.specs.Prelude.{◌≡◌, ◌≤◌, ◌<◌, ◌^◌, ◌++◌, length, IfOk};
ghost use Rattle.gate_net.specs.Sound.{driven_nets};
ghost use Rattle.name_table.specs.Names.{index_of};
ghost use Rattle.gate_net.specs.Steps.{Gives, each};
ghost use Rattle.first_netlist.specs.Declarations.{module_view};
ghost use Rattle.first_netlist.specs.Meaning.{limit, net_names, names_besides, instance_names, nets_of, ports_agree, indices_from, ports_of, inputs_at, gate_of, is_apart, meaning};

use crate::tables::{
    all_among, all_in_either, check_distinct, copies_of, indices_among, instance_names, none_among,
    push_others, table_of,
};
use crate::tree::{Instance, Module};
use byte_lists::{Bytes, NetList};
use gate_net::{BuildFault, Gate, GateList, Netlist};
use indexmap::IndexSet;
use name_table::NameTable;
use std::alloc::{AllocError, Global};

const LIMIT: usize = 1_048_576;

/// The index of a name in the table.
fn net_at(nets: &NameTable, name: &Bytes) -> Result<u32, BuildFault>
    requires { length nets.now ≤ limit }
    ensures { Gives (λ net. net) result (index_of name.now nets.now) }
{
    match nets.find(name.as_slice()) {
        Some(index) => Ok(index as u32),
        None => Err(BuildFault::Unbuilt),
    }
}

/// The indices of the names in the table.
fn nets_at(alloc: Global, nets: &NameTable, names: &[Bytes]) -> Result<Vec<u32>, BuildFault>
    requires { length nets.now ≤ limit }
    ensures { Gives (λ indices. indices.items) result
        (each (λ name. index_of name nets.now) names.now) }
{
    let mut indices = Vec::new(alloc);
    for name in names {
        indices.push(net_at(nets, name)?)?;
    }
    Ok(indices)
}

/// The nets that a gate reads.
#[tactic(auto, unfolding(crate::specs::Meaning::inputs_at))]
fn inputs_at(alloc: Global, nets: &NameTable, names: &[Bytes]) -> Result<NetList, BuildFault>
    requires { length nets.now ≤ limit }
    ensures { Gives (λ inputs. inputs) result (inputs_at nets.now names.now) }
{
    let inputs = nets_at(alloc, nets, names)?;
    if 0 < inputs.len() {
        Ok(NetList::from_vec(inputs))
    } else {
        Err(BuildFault::Unbuilt)
    }
}

/// The gate that an instance is.
#[tactic(auto, unfolding(crate::specs::Meaning::gate_of))]
fn gate_of(alloc: Global, nets: &NameTable, instance: &Instance) -> Result<Gate, BuildFault>
    requires { length nets.now ≤ limit }
    ensures { Gives (λ gate. gate) result (gate_of nets.now instance.now) }
{
    let output = net_at(nets, &instance.output)?;
    let inputs = inputs_at(alloc, nets, instance.inputs.as_slice())?;
    Ok(Gate { output, inputs })
}

/// The gates that the instances are.
fn gates_of(
    alloc: Global,
    nets: &NameTable,
    instances: &[Instance],
) -> Result<Vec<Gate>, BuildFault>
    requires { length nets.now ≤ limit }
    ensures { Gives (λ gates. gates.items) result (each (gate_of nets.now) instances.now) }
{
    let mut gates = Vec::new(alloc);
    for instance in instances {
        gates.push(gate_of(alloc, nets, instance)?)?;
    }
    Ok(gates)
}

/// Whether no number stands twice.
fn all_apart(alloc: Global, nets: &[u32]) -> Result<bool, AllocError>
    ensures { IfOk result (λ apart. apart ≡ is_apart nets.now) }
{
    let mut seen = IndexSet::new(alloc);
    for net in nets {
        if !seen.insert(*net)? {
            return Ok(false);
        }
    }
    Ok(true)
}

/// The nets that have a driver, each as often as it has one.
fn drivers_of(alloc: Global, inputs: &[u32], gates: &[Gate]) -> Result<Vec<u32>, AllocError>
    ensures { IfOk result (λ drivers. drivers.items ≡ inputs.now ++ driven_nets gates.now) }
{
    let mut drivers = Vec::from_slice(alloc, inputs)?;
    for gate in gates {
        drivers.push(gate.output)?;
    }
    Ok(drivers)
}

/// Whether each net has one driver at most, where an input is one.
fn have_one_driver(alloc: Global, inputs: &[u32], gates: &[Gate]) -> Result<bool, AllocError>
    ensures { IfOk result (λ apart. apart ≡ is_apart (inputs.now ++ driven_nets gates.now)) }
{
    let drivers = drivers_of(alloc, inputs, gates)?;
    all_apart(alloc, &drivers)
}

/// The names of the nets, where no header name and no wire is declared twice.
#[tactic(auto, unfolding(crate::specs::Meaning::net_names))]
fn net_names(alloc: Global, module: &Module) -> Result<Vec<Bytes>, BuildFault>
    ensures names { Gives (λ names. names.items) result (net_names (module_view «module».now)) }
    ensures header { IfOk result (λ names. length «module».now.header.items ≤ length names.items) }
{
    let header = table_of(alloc, &module.header)?;
    check_distinct(alloc, &module.wires)?;
    let mut names = copies_of(alloc, &module.header)?;
    push_others(alloc, &header, &module.wires, &mut names)?;
    Ok(names)
}

/// Refuses names of instances that stand twice, or are nets.
#[tactic(auto, unfolding(crate::specs::Meaning::names_besides))]
fn check_instances(alloc: Global, nets: &NameTable, gates: &[Instance]) -> Result<(), BuildFault>
    ensures { Gives (λ _. instance_names gates.now) result (names_besides nets.now gates.now) }
{
    let instances = instance_names(alloc, gates)?;
    check_distinct(alloc, &instances)?;
    if none_among(nets, &instances) {
        Ok(())
    } else {
        Err(BuildFault::Unbuilt)
    }
}

/// The nets by name.
#[tactic(auto, unfolding(crate::specs::Meaning::nets_of))]
fn net_table(alloc: Global, module: &Module) -> Result<NameTable, BuildFault>
    ensures nets { Gives (λ nets. nets) result (nets_of (module_view «module».now)) }
    ensures few { IfOk result (λ nets. length nets ≤ limit) }
    ensures header { IfOk result (λ nets. length «module».now.header.items ≤ length nets) }
{
    let names = net_names(alloc, module)?;
    let nets = table_of(alloc, &names)?;
    check_instances(alloc, &nets, &module.gates)?;
    if nets.len() <= LIMIT {
        Ok(nets)
    } else {
        Err(BuildFault::Unbuilt)
    }
}

/// Whether each header name is declared as an input or as an output, and no other name is.
fn ports_agree(module: &Module, header: &NameTable, inputs: &NameTable, outputs: &NameTable) -> bool
    requires header { header.now ≡ «module».now.header.items }
    requires inputs { inputs.now ≡ «module».now.inputs.items }
    requires outputs { outputs.now ≡ «module».now.outputs.items }
    ensures { result
        ≡ ports_agree «module».now.header.items «module».now.inputs.items «module».now.outputs.items }
{
    all_among(header, &module.inputs)
        && all_among(header, &module.outputs)
        && none_among(inputs, &module.outputs)
        && all_in_either(inputs, outputs, &module.header)
}

/// The indices of the inputs, and those of the outputs, in the header.
fn port_nets(
    alloc: Global,
    header: &[Bytes],
    inputs: &NameTable,
    outputs: &NameTable,
) -> Result<(Vec<u32>, Vec<u32>), AllocError>
    requires { length header.now ≤ limit }
    ensures { IfOk result (λ nets.
        (nets.0.items ≡ indices_from 0 inputs.now header.now)
        × (nets.1.items ≡ indices_from 0 outputs.now header.now)) }
{
    let input_nets = indices_among(alloc, inputs, header)?;
    let output_nets = indices_among(alloc, outputs, header)?;
    Ok((input_nets, output_nets))
}

/// The nets of the inputs, and those of the outputs.
#[tactic(auto, unfolding(crate::specs::Meaning::ports_of))]
fn ports_of(alloc: Global, module: &Module) -> Result<(Vec<u32>, Vec<u32>), BuildFault>
    requires { length «module».now.header.items ≤ limit }
    ensures { Gives (λ ports. (ports.0.items, ports.1.items)) result
        (ports_of (module_view «module».now)) }
{
    let header = table_of(alloc, &module.header)?;
    let inputs = table_of(alloc, &module.inputs)?;
    let outputs = table_of(alloc, &module.outputs)?;
    if !ports_agree(module, &header, &inputs, &outputs) {
        return Err(BuildFault::Unbuilt);
    }
    Ok(port_nets(alloc, &module.header, &inputs, &outputs)?)
}

/// The netlist that the declarations mean.
#[tactic(auto, unfolding(crate::specs::Meaning::meaning))]
pub fn meaning(alloc: Global, module: &Module) -> Result<Netlist, BuildFault>
    ensures { Gives (λ netlist. netlist) result (meaning (module_view «module».now)) }
{
    let nets = net_table(alloc, module)?;
    let (inputs, outputs) = ports_of(alloc, module)?;
    let gates = gates_of(alloc, &nets, &module.gates)?;
    if have_one_driver(alloc, &inputs, &gates)? && gates.len() <= LIMIT {
        Ok(Netlist {
            names: nets.into_names(alloc)?,
            inputs: NetList::from_vec(inputs),
            outputs: NetList::from_vec(outputs),
            gates: GateList::from_vec(gates),
        })
    } else {
        Err(BuildFault::Unbuilt)
    }
}
