mod bound_rows;
mod first_rows;
mod netlist;
mod second_rows;

use bound_rows::bound_rows;
use byte_lists::{NameList, NetList};
use flat_net::Flat;
use level_range::Logic;
use netlist::{small_netlist, wide_netlist};
use std::alloc::{AllocError, Global};
use std::process::Abort;
use std::test::Fail;
use vector_text::{
    BindFault, LogicList, Stimulus, StimulusWhat, VecFault, Vectors, WantedList, bind, read_vectors,
};

/// A text, and what reading or binding it gives, as `shown` and `bound_shown` write it.
pub struct Row {
    pub text: &'static str,
    pub answer: &'static str,
}

fn character(value: Logic) -> char {
    match value {
        Logic::Zero => '0',
        Logic::One => '1',
        Logic::X => 'x',
        Logic::Z => 'z',
    }
}

fn push_values(text: &mut String, values: &LogicList) -> Result<(), AllocError> {
    for value in values.as_slice() {
        text.push(character(*value))?;
    }
    Ok(())
}

fn push_wanted(text: &mut String, wanted: &WantedList) -> Result<(), AllocError> {
    for value in wanted.as_slice() {
        match value {
            Some(value) => text.push(character(*value))?,
            None => text.push('-')?,
        }
    }
    Ok(())
}

/// The time, then `=` and values, or `?` and expected values, or `?` alone for a strobe.
fn push_line(text: &mut String, time: u64, what: &StimulusWhat) -> Result<(), AllocError> {
    write!(text, "{time}")?;
    match what {
        StimulusWhat::Values(values) => {
            text.push('=')?;
            push_values(text, values)?;
        }
        StimulusWhat::Strobe => text.push('?')?,
        StimulusWhat::Expect(wanted) => {
            text.push('?')?;
            push_wanted(text, wanted)?;
        }
    }
    text.push(';')?;
    Ok(())
}

/// The name in angle brackets, each byte as the character of its code.
fn push_name(text: &mut String, name: &[u8]) -> Result<(), AllocError> {
    text.push('<')?;
    for byte in name {
        text.push(char::from(*byte))?;
    }
    text.push('>')?;
    Ok(())
}

/// The number of a line and the names that it lists.
fn push_names(text: &mut String, line: u32, names: &NameList) -> Result<(), AllocError> {
    write!(text, "{line}")?;
    for name in names.as_slice() {
        push_name(text, name.as_slice())?;
    }
    text.push(';')
}

/// The line of the outputs and their names, where there is one.
fn push_outputs(text: &mut String, vectors: &Vectors) -> Result<(), AllocError> {
    let line = vectors.outputs_line;
    match &vectors.outputs {
        Some(outputs) => push_names(text, line, outputs),
        None => write!(text, "{line};"),
    }
}

/// Each line with its number.
fn push_lines(text: &mut String, vectors: &Vectors) -> Result<(), AllocError> {
    for line in vectors.lines.as_slice() {
        let number = line.line;
        write!(text, "{number}@")?;
        push_line(text, line.time, &line.what)?;
    }
    Ok(())
}

fn push_end(text: &mut String, end: u64) -> Result<(), AllocError> {
    write!(text, "end {end}")
}

fn push_vectors(text: &mut String, vectors: &Vectors) -> Result<(), AllocError> {
    push_names(text, vectors.inputs_line, &vectors.inputs)?;
    push_outputs(text, vectors)?;
    push_lines(text, vectors)?;
    push_end(text, vectors.end)
}

/// The line and the names of the inputs, those of the outputs, each line with its number, the end.
fn vectors_shown(alloc: Global, vectors: &Vectors) -> Result<String, AllocError> {
    let mut text = String::new(alloc);
    push_vectors(&mut text, vectors)?;
    Ok(text)
}

fn fault_shown(alloc: Global, fault: VecFault) -> Result<String, AllocError> {
    match fault {
        VecFault::BadLine(line) => format!(in alloc; "bad line {line}"),
        VecFault::Limit(line) => format!(in alloc; "limit {line}"),
        VecFault::Order(line) => format!(in alloc; "order {line}"),
        VecFault::NoEnd => String::from_str(alloc, "no end"),
        VecFault::Memory => String::from_str(alloc, "memory"),
    }
}

fn shown(alloc: Global, text: &str) -> Result<String, AllocError> {
    match vectors_in(alloc, text.as_bytes()) {
        Ok(vectors) => vectors_shown(alloc, &vectors),
        Err(fault) => fault_shown(alloc, fault),
    }
}

fn assert_texts(rt: &impl Abort, alloc: Global, rows: &[Row]) -> Result<(), Fail> {
    for row in rows {
        let answer = shown(alloc, row.text)?;
        assert_eq!(rt; answer.as_str(), row.answer, "at {:?}", row.text);
    }
    Ok(())
}

#[test]
fn texts_of_the_first_version_are_read(rt: HostRuntime) -> Result<(), Fail> {
    let alloc = rt.alloc();
    assert_texts(&rt, alloc, first_rows::first_part())?;
    assert_texts(&rt, alloc, first_rows::second_part())?;
    assert_texts(&rt, alloc, first_rows::third_part())?;
    assert_texts(&rt, alloc, first_rows::fourth_part())
}

#[test]
fn texts_of_the_second_version_are_read(rt: HostRuntime) -> Result<(), Fail> {
    let alloc = rt.alloc();
    assert_texts(&rt, alloc, second_rows::first_part())?;
    assert_texts(&rt, alloc, second_rows::second_part())?;
    assert_texts(&rt, alloc, second_rows::third_part())?;
    assert_texts(&rt, alloc, second_rows::fourth_part())
}

fn push_nets(text: &mut String, nets: &NetList) -> Result<(), AllocError> {
    for net in nets.as_slice() {
        write!(text, " {net}")?;
    }
    text.push(';')
}

fn push_stimulus_lines(text: &mut String, stimulus: &Stimulus) -> Result<(), AllocError> {
    for line in stimulus.lines.as_slice() {
        push_line(text, line.time, &line.what)?;
    }
    Ok(())
}

fn push_stimulus(text: &mut String, stimulus: &Stimulus) -> Result<(), AllocError> {
    text.push_str("inputs")?;
    push_nets(text, &stimulus.inputs)?;
    text.push_str("outputs")?;
    push_nets(text, &stimulus.outputs)?;
    push_stimulus_lines(text, stimulus)?;
    push_end(text, stimulus.end)
}

/// The numbers of the inputs and of the outputs, the lines, the end.
fn stimulus_shown(alloc: Global, stimulus: &Stimulus) -> Result<String, AllocError> {
    let mut text = String::new(alloc);
    push_stimulus(&mut text, stimulus)?;
    Ok(text)
}

fn bind_fault_shown(alloc: Global, fault: BindFault) -> Result<String, AllocError> {
    match fault {
        BindFault::UnknownNet(line) => format!(in alloc; "unknown net {line}"),
        BindFault::NotAnInput(line) => format!(in alloc; "not an input {line}"),
        BindFault::NamedTwice(line) => format!(in alloc; "named twice {line}"),
        BindFault::Limit(line) => format!(in alloc; "limit {line}"),
        BindFault::Width(line) => format!(in alloc; "width {line}"),
        BindFault::Memory => String::from_str(alloc, "memory"),
    }
}

/// What vectors mean for a netlist, without clauses.
fn stimulus_of(alloc: Global, vectors: &Vectors, flat: &Flat) -> Result<Stimulus, BindFault> {
    bind(alloc, vectors, flat)
}

fn answer_of(alloc: Global, vectors: &Vectors, flat: &Flat) -> Result<String, AllocError> {
    match stimulus_of(alloc, vectors, flat) {
        Ok(stimulus) => stimulus_shown(alloc, &stimulus),
        Err(fault) => bind_fault_shown(alloc, fault),
    }
}

/// The vectors of a text that isn't long, without clauses.
fn vectors_in(alloc: Global, text: &[u8]) -> Result<Vectors, VecFault> {
    if text.len() > 16_000_000 {
        return Err(VecFault::Memory);
    }
    read_vectors(alloc, text)
}

fn text_shown(alloc: Global, text: &[u8], flat: &Flat) -> Result<String, AllocError> {
    match vectors_in(alloc, text) {
        Ok(vectors) => answer_of(alloc, &vectors, flat),
        Err(fault) => fault_shown(alloc, fault),
    }
}

fn bound_shown(rt: &impl Abort, alloc: Global, text: &[u8]) -> Result<String, Fail> {
    let flat = small_netlist(rt, alloc)?;
    Ok(text_shown(alloc, text, &flat)?)
}

#[test]
fn vectors_are_bound_to_a_netlist(rt: HostRuntime) -> Result<(), Fail> {
    for row in bound_rows() {
        let answer = bound_shown(&rt, rt.alloc(), row.text.as_bytes())?;
        assert_eq!(rt; answer.as_str(), row.answer, "at {:?}", row.text);
    }
    Ok(())
}

#[test]
fn a_name_that_is_no_text_is_unknown(rt: HostRuntime) -> Result<(), Fail> {
    let answer = bound_shown(&rt, rt.alloc(), b"vectors 1\ninputs s\xff\nend 0\n")?;
    assert_eq!(rt; answer.as_str(), "unknown net 2");
    Ok(())
}

fn share<T: Send + Sync>(value: T) -> T {
    value
}

#[test]
fn a_stimulus_is_shared_between_threads(rt: HostRuntime) -> Result<(), Fail> {
    let flat = small_netlist(&rt, rt.alloc())?;
    let vectors = vectors_in(rt.alloc(), b"vectors 1\ninputs s\n3 1\nend 7\n")?;
    let stimulus = share(stimulus_of(rt.alloc(), &vectors, &flat)?);
    assert_eq!(rt; stimulus.end, 7);
    Ok(())
}

#[test]
fn a_block_has_4194304_turns(rt: HostRuntime) -> Result<(), Fail> {
    let text = b"vectors 2\ninputs s\nrepeat 4194304 5 3\nstrobe 2\nendrepeat\nend 12582916\n";
    let vectors = vectors_in(rt.alloc(), text)?;
    let lines = vectors.lines.as_slice();
    assert_eq!(rt; lines.len(), 4_194_304);
    for (turn, line) in lines.iter().enumerate() {
        assert_eq!(rt; line.line, 4);
        assert_eq!(rt; line.time, 7 + 3 * turn as u64);
    }
    assert_eq!(rt; vectors.end, 12_582_916);
    Ok(())
}

/// A block of 64 turns of a value line with 1,048,575 values, which is of the greatest size.
fn greatest_text(alloc: Global, behind: &str) -> Result<String, AllocError> {
    let mut text = String::from_str(alloc, "vectors 2\ninputs s\nrepeat 64 0 1\n0 ")?;
    for _ in 0..1_048_575 {
        text.push('1')?;
    }
    text.push_str("\nendrepeat\n")?;
    text.push_str(behind)?;
    Ok(text)
}

#[test]
fn the_greatest_size_is_met_and_passed(rt: HostRuntime) -> Result<(), Fail> {
    let text = greatest_text(rt.alloc(), "end 63\n")?;
    let vectors = vectors_in(rt.alloc(), text.as_bytes())?;
    assert_eq!(rt; vectors.lines.as_slice().len(), 64);
    let text = greatest_text(rt.alloc(), "strobe 62\nend 63\n")?;
    let answer = vectors_in(rt.alloc(), text.as_bytes());
    assert_eq!(rt; answer.err(), Some(VecFault::Limit(6)));
    Ok(())
}

/// The stimulus of a text for a netlist in which the name `big` has 524,288 bits.
fn wide_stimulus(
    rt: &impl Abort,
    alloc: Global,
    text: &[u8],
) -> Result<Result<Stimulus, BindFault>, Fail> {
    let flat = wide_netlist(rt, alloc)?;
    let vectors = vectors_in(alloc, text)?;
    Ok(stimulus_of(alloc, &vectors, &flat))
}

#[test]
fn outputs_have_1048576_bits(rt: HostRuntime) -> Result<(), Fail> {
    let text = b"vectors 1\ninputs s\noutputs big big\nend 0\n".as_slice();
    let stimulus = wide_stimulus(&rt, rt.alloc(), text)??;
    assert_eq!(rt; stimulus.outputs.as_slice().len(), 1_048_576);
    let text = b"vectors 1\ninputs s\noutputs big s big s s\nend 0\n".as_slice();
    let answer = wide_stimulus(&rt, rt.alloc(), text)?;
    assert_eq!(rt; answer.err(), Some(BindFault::Limit(3)));
    Ok(())
}
