ghost use Rattle.std.specs.Prelude.{◌≡◌, IsTrue, IfOk, Some};
ghost use Rattle.gate_net.specs.declared.stimulus.Stimulus.{Stimulus};
ghost use Rattle.gate_net.specs.Sound.{IsSound, IsLawful};
ghost use Rattle.name_table.specs.Names.{is_distinct};
ghost use Rattle.first_vectors.specs.Fields.{fields_of, table_of};
ghost use Rattle.first_vectors.specs.First.{IsFirstVectors};
ghost use Rattle.gate_net.specs.Steps.{Gives};
ghost use Rattle.first_vectors.specs.Reading.{is_first, stimulus_after, stimulus_of};

use crate::fields::{line_at, two_fields};
use crate::inputs::inputs_in;
use crate::rows::rows_in;
use byte_lists::NetList;
use gate_net::{BuildFault, Netlist, Stimulus, ValueLineList};
use std::alloc::Global;

fn is_first_line(line: &[u8]) -> bool
    ensures { result ≡ is_first (fields_of line.now) }
{
    match two_fields(line) {
        Some((word, form)) => word == b"vectors".as_slice() && form == b"1".as_slice(),
        None => false,
    }
}

#[tactic(auto, unfolding(crate::specs::Reading::stimulus_after))]
fn stimulus_behind(
    alloc: Global,
    netlist: &Netlist,
    second: &[u8],
    rows: &[u8],
) -> Result<Stimulus, BuildFault>
    requires sound { IsSound netlist.now }
    requires distinct { IsTrue (is_distinct netlist.now.names) }
    ensures { Gives (λ stimulus. stimulus) result
        (stimulus_after netlist.now (fields_of second.now) (table_of rows.now)) }
{
    let inputs = inputs_in(alloc, netlist, second)?;
    let (lines, end) = rows_in(alloc, inputs.len(), rows)?;
    Ok(Stimulus {
        inputs: NetList::from_vec(inputs),
        lines: ValueLineList::from_vec(lines),
        end,
    })
}

#[tactic(auto, unfolding(crate::specs::Reading::stimulus_of, crate::specs::Reading::stimulus_in, crate::specs::Fields::table_of))]
fn stimulus_in(alloc: Global, text: &[u8], netlist: &Netlist) -> Result<Stimulus, BuildFault>
    requires sound { IsSound netlist.now }
    requires distinct { IsTrue (is_distinct netlist.now.names) }
    ensures { Gives (λ stimulus. stimulus) result (stimulus_of netlist.now text.now) }
{
    if let Some((first, behind)) = line_at(text)
        && let Some((second, rows)) = line_at(behind)
        && is_first_line(first)
    {
        return stimulus_behind(alloc, netlist, second, rows);
    }
    Err(BuildFault::Unbuilt)
}

/// Reads a text of the first vector form: its lines are `vectors 1`, `inputs` with the names of one
/// or more inputs of the netlist, each once, value lines of a time and a `0` or `1` for each listed
/// input, at rising times, and at last `end` with a time that isn't below that of the line before.
/// Fields are separated by single spaces; times are 1 to 20 decimal digits, at most 2 ^ 40 ticks;
/// the last line may lack its line feed. A field of the `inputs` line that begins with `\` is an
/// escaped name (IEEE 1364-2005, 3.7.1). It names the input whose name is the field and one space,
/// so `\abc` isn't `abc`; that space separates it from the next field too, or the line ends there.
pub fn read_vectors(alloc: Global, text: &[u8], netlist: &Netlist) -> Result<Stimulus, BuildFault>
    requires sound { IsSound netlist.now }
    requires distinct { IsTrue (is_distinct netlist.now.names) }

    // What is read stands in the text, which is in the form.
    ensures found { IfOk result (λ stimulus. IsFirstVectors netlist.now text.now stimulus) }
    ensures lawful { IfOk result (λ stimulus. IsLawful netlist.now stimulus) }
    // What a text in the form says is read, unless memory runs out.
    ensures only { (stimulus : Stimulus) → IsFirstVectors netlist.now text.now stimulus →
        Gives (λ s. s) result (Some stimulus) }
    // `Unbuilt` comes exactly where reading gives nothing.
    ensures exact { Gives (λ stimulus. stimulus) result (stimulus_of netlist.now text.now) }
{
    stimulus_in(alloc, text, netlist)
}
