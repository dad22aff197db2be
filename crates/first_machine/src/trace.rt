//! The text of a trace.

ghost use Rattle.std.specs.Prelude.{◌≡◌, ◌++◌, List, ℕ, length, not, OnOk, Option};
ghost use Rattle.level_range.specs.Signal.{signal_text};
ghost use Rattle.gate_net.specs.Sound.{AreNets};
ghost use Rattle.first_machine.specs.Machine.{Machine, strong};
ghost use Rattle.first_machine.specs.Trace.{trace_line, step_text, printed_after};
ghost use Rattle.first_machine.specs.PrintedPlaces.{is_last, line_of, IsStep, ArePrinted};

use crate::phases::differ;
use gate_net::Netlist;
use itoa::Buffer;
use level_range::{Logic, percent_v, span};
use std::alloc::AllocError;

/// A line for a net: the tick, its name and what it shows.
fn push_line(text: &mut Vec<u8>, tick: u64, name: &[u8], value: Logic) -> Result<(), AllocError>
    ensures { OnOk result (text.new.items ≡ text.old.items ++ trace_line tick name.now (signal_text (strong value))) }
{
    let mut buffer = Buffer::new();
    text.extend_from_slice(buffer.format(tick).as_bytes())?;
    text.push(b' ')?;
    text.extend_from_slice(name)?;
    text.push(b' ')?;
    text.extend_from_slice(&percent_v(span(value, 6, 6)))?;
    text.push(b'\n')?;
    Ok(())
}

/// Whether a value isn't the last one.
fn is_new(last: Option<Logic>, value: Logic) -> bool
    ensures { result ≡ not (is_last last value) }
{
    match last {
        Some(last) => differ(last, value),
        None => true,
    }
}

/// The line of a place, where its value isn't the last one.
fn push_place(
    text: &mut Vec<u8>,
    tick: u64,
    name: &[u8],
    value: Logic,
    last: Option<Logic>,
) -> Result<(), AllocError>
    ensures { OnOk result (text.new.items ≡ text.old.items ++ line_of last tick name.now value) }
{
    if is_new(last, value) {
        push_line(text, tick, name, value)?;
    }
    Ok(())
}

/// The lines of a step that ended. `printed` has what each place of the outputs showed last.
pub fn push_step(
    text: &mut Vec<u8>,
    netlist: &Netlist,
    seen: &[Logic],
    tick: u64,
    printed: &mut [Option<Logic>],
) -> Result<(), AllocError>
    requires outputs { AreNets (length netlist.now.names) netlist.now.outputs }
    requires seen { length seen.now ≡ length netlist.now.names }
    requires printed { length printed.old ≡ length netlist.now.outputs }
    ensures text { OnOk result ((m : Machine) (texts : List (Option (List ℕ)))
        → IsStep netlist.now tick seen.now printed.old m texts
        → text.new.items ≡ text.old.items ++ step_text netlist.now texts m) }
    ensures printed { OnOk result ((m : Machine) (texts : List (Option (List ℕ)))
        → IsStep netlist.now tick seen.now printed.old m texts
        → ArePrinted printed.new (printed_after netlist.now m)) }
{
    for (j, net) in netlist.outputs.as_slice().iter().enumerate() {
        let net = *net as usize;
        let value = seen[net];
        let name = netlist.names.as_slice()[net].as_slice();
        push_place(text, tick, name, value, printed[j])?;
        printed[j] = Some(value);
    }
    Ok(())
}
