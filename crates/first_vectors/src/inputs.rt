ghost use Rattle.std.specs.Prelude.{◌≡◌, map, IsTrue, IfOk};
ghost use Rattle.gate_net.specs.Sound.{IsSound};
ghost use Rattle.name_table.specs.Names.{is_distinct};
ghost use Rattle.first_vectors.specs.Fields.{fields_of, name_in};
ghost use Rattle.gate_net.specs.Steps.{Gives};
ghost use Rattle.first_vectors.specs.Reading.{input_names, input_named, input_list, inputs_of};

use crate::fields::field_at;
use byte_lists::Bytes;
use gate_net::{BuildFault, Netlist};
use name_table::NameTable;
use std::alloc::{AllocError, Global};

fn input_table(alloc: Global, netlist: &Netlist) -> Result<NameTable, AllocError>
    requires sound { IsSound netlist.now }
    requires distinct { IsTrue (is_distinct netlist.now.names) }
    ensures { IfOk result (λ table. table ≡ input_names netlist.now) }
{
    let mut table = NameTable::new(alloc);
    let names = netlist.names.as_slice();
    for net in netlist.inputs.as_slice() {
        table.add(names[*net as usize].as_slice())?;
    }
    Ok(table)
}

fn input_in(table: &NameTable, netlist: &Netlist, name: &[u8]) -> Option<u32>
    requires { table.now ≡ input_names netlist.now }
    ensures { result ≡ input_named netlist.now name.now }
{
    let index = table.find(name)?;
    netlist.inputs.as_slice().get(index).copied()
}

/// The name that a field says: an escaped name, which begins with `\`, has a space of its own at
/// its end (IEEE 1364-2005, 3.7.1).
fn name_in(alloc: Global, field: &[u8]) -> Result<Bytes, AllocError>
    ensures { IfOk result (λ name. name ≡ name_in field.now) }
{
    let mut name = Vec::with_capacity(alloc, field.len() + 1)?;
    name.extend_from_slice(field)?;
    if field.first() == Some(&b'\\') {
        name.push(b' ')?;
    }
    Ok(Bytes::from_vec(name))
}

fn listed_inputs(alloc: Global, netlist: &Netlist, names: &[u8]) -> Result<Vec<u32>, BuildFault>
    requires sound { IsSound netlist.now }
    requires distinct { IsTrue (is_distinct netlist.now.names) }
    ensures { Gives (λ inputs. inputs.items) result
        (input_list netlist.now (map name_in (fields_of names.now))) }
{
    let table = input_table(alloc, netlist)?;
    let mut seen = NameTable::new(alloc);
    let mut inputs = Vec::new(alloc);
    let mut rest = names;
    loop {
        let (field, others) = field_at(rest);
        let owned = name_in(alloc, field)?;
        let name = owned.as_slice();
        let input = match input_in(&table, netlist, name) {
            Some(input) => input,
            None => return Err(BuildFault::Unbuilt),
        };
        if !seen.add(name)? {
            return Err(BuildFault::Unbuilt);
        }
        inputs.push(input)?;
        match others {
            Some(after) => rest = after,
            None => return Ok(inputs),
        }
    }
}

/// The inputs that the second line of a text lists.
#[tactic(auto, unfolding(crate::specs::Reading::inputs_of, crate::specs::Reading::input_list))]
pub fn inputs_in(alloc: Global, netlist: &Netlist, line: &[u8]) -> Result<Vec<u32>, BuildFault>
    requires sound { IsSound netlist.now }
    requires distinct { IsTrue (is_distinct netlist.now.names) }
    ensures { Gives (λ inputs. inputs.items) result (inputs_of netlist.now (fields_of line.now)) }
{
    match field_at(line) {
        (word, Some(names)) if word == b"inputs".as_slice() => listed_inputs(alloc, netlist, names),
        _ => Err(BuildFault::Unbuilt),
    }
}
