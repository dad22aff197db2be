ghost use Rattle.std.specs.Prelude.{◌≡◌, map, IfOk};
ghost use Rattle.vector_text.specs.Answers.{Binds};
ghost use Rattle.vector_text.specs.Binding.{has_width, bound_of, lines_bound};
ghost use Rattle.vector_text.specs.Lawful.{AreInOrder, IsLawful};

use crate::fault::BindFault;
use crate::inputs::bound_inputs;
use crate::outputs::bound_outputs;
use crate::stimulus::{Stimulus, StimulusLine, StimulusLineList, StimulusWhat};
use crate::vectors::{VectorLine, Vectors};
use flat_net::Flat;
use std::alloc::Global;

/// Whether a line has as many values as inputs, or as many expected values as outputs.
fn has_width(what: &StimulusWhat, inputs: usize, outputs: usize) -> bool
    ensures { result ≡ has_width inputs outputs what.now }
{
    match what {
        StimulusWhat::Values(values) => values.as_slice().len() == inputs,
        StimulusWhat::Strobe => true,
        StimulusWhat::Expect(wanted) => wanted.as_slice().len() == outputs,
    }
}

/// The lines of a stimulus with so many inputs and outputs.
fn bound_lines(
    alloc: Global,
    lines: &[VectorLine],
    inputs: usize,
    outputs: usize,
) -> Result<StimulusLineList, BindFault>
    ensures { Binds (λ bound. bound) result (lines_bound inputs outputs lines.now) }
{
    let mut bound = Vec::with_capacity(alloc, lines.len())?;
    for line in lines {
        if !has_width(&line.what, inputs, outputs) {
            return Err(BindFault::Width(u64::from(line.line)));
        }
        bound.push(StimulusLine {
            time: line.time,
            what: line.what.copied(alloc)?,
        })?;
    }
    Ok(StimulusLineList::from_vec(bound))
}

/// The stimulus that vectors mean for a netlist. The line of the inputs is judged first, then that of
/// the outputs, then the lines with values in their order; in one line the names in their order.
pub fn bind(alloc: Global, vectors: &Vectors, flat: &Flat) -> Result<Stimulus, BindFault>
    // The result is what the vectors mean for the netlist, or their first fault.
    ensures exact { Binds (λ stimulus. stimulus) result (bound_of flat.now.parts vectors.now) }
    // What is made of vectors in order is lawful.
    ensures lawful { AreInOrder vectors.now
        → IfOk result (λ stimulus. IsLawful flat.now.parts stimulus) }
{
    let _ = flat.net_count();
    let inputs_line = u64::from(vectors.inputs_line);
    let outputs_line = u64::from(vectors.outputs_line);
    let inputs = bound_inputs(alloc, flat, inputs_line, vectors.inputs.as_slice())?;
    let outputs = bound_outputs(alloc, flat, outputs_line, &vectors.outputs)?;
    let lines = bound_lines(
        alloc,
        vectors.lines.as_slice(),
        inputs.as_slice().len(),
        outputs.as_slice().len(),
    )?;
    Ok(Stimulus {
        inputs,
        outputs,
        lines,
        end: vectors.end,
    })
}
