//! Parts as the tables of tests have them.

use byte_lists::{Bytes, NameList};
use expression_bits::BitRun;
use module_parts::*;
use std::alloc::AllocError;
use std::fmt::Write;
use v_lexer::Bit;
use v_tree::Select;

fn show_bytes(shown: &mut String, bytes: &[u8]) -> Result<(), AllocError> {
    for byte in bytes {
        shown.push(char::from(*byte))?;
    }
    Ok(())
}

/// `names(a,b)`.
fn show_names(shown: &mut String, names: &NameList) -> Result<(), AllocError> {
    shown.push_str("names(")?;
    for (i, name) in names.as_slice().iter().enumerate() {
        if i > 0 {
            shown.push(',')?;
        }
        show_bytes(shown, name.as_slice())?;
    }
    shown.push(')')
}

fn show_select(shown: &mut String, select: Option<Select>) -> Result<(), AllocError> {
    match select {
        Some(
            Select {
                left,
                right: Some(right),
            },
        ) => write!(shown, "[{left}:{right}]")?,
        Some(Select { left, right: None }) => write!(shown, "[{left}]")?,
        None => {}
    }
    Ok(())
}

fn bit_letter(bit: Bit) -> char {
    match bit {
        Bit::Zero => '0',
        Bit::One => '1',
        Bit::X => 'x',
        Bit::Z => 'z',
    }
}

fn show_bits(shown: &mut String, bits: &[Bit]) -> Result<(), AllocError> {
    shown.push('\'')?;
    for bit in bits {
        shown.push(bit_letter(*bit))?;
    }
    Ok(())
}

/// A net or bits of it, or `'` and the bits of a literal.
fn show_run(shown: &mut String, run: &BitRun) -> Result<(), AllocError> {
    match run {
        BitRun::Net(name, select) => {
            show_bytes(shown, name.as_slice())?;
            show_select(shown, *select)
        }
        BitRun::Literal(bits) => show_bits(shown, bits.as_slice()),
    }
}

/// Runs with commas between.
fn show_runs(shown: &mut String, runs: &[BitRun]) -> Result<(), AllocError> {
    for (i, run) in runs.iter().enumerate() {
        if i > 0 {
            shown.push(',')?;
        }
        show_run(shown, run)?;
    }
    Ok(())
}

fn show_name(shown: &mut String, name: &Option<Bytes>) -> Result<(), AllocError> {
    if let Some(name) = name {
        shown.push(' ')?;
        show_bytes(shown, name.as_slice())?;
    }
    Ok(())
}

/// `gate ITEM NAME(RUNS|RUNS)`.
fn show_gate(shown: &mut String, gate: &GatePart) -> Result<(), AllocError> {
    write!(shown, "gate {}", gate.item)?;
    show_name(shown, &gate.name)?;
    shown.push('(')?;
    for (i, terminal) in gate.terminals.as_slice().iter().enumerate() {
        if i > 0 {
            shown.push('|')?;
        }
        show_runs(shown, terminal.as_slice())?;
    }
    shown.push(')')
}

/// `pair ITEM RUNS=RUNS`, with ` cut COUNT` where that isn't 0.
fn show_pair(shown: &mut String, pair: &PairPart) -> Result<(), AllocError> {
    write!(shown, "pair {} ", pair.item)?;
    show_runs(shown, pair.target.as_slice())?;
    shown.push('=')?;
    show_runs(shown, pair.value.runs.as_slice())?;
    if pair.value.cut > 0 {
        write!(shown, " cut {}", pair.value.cut)?;
    }
    Ok(())
}

/// `PORT=RUNS`, with `-` where there is no port.
fn show_connection(shown: &mut String, connection: &PortRuns) -> Result<(), AllocError> {
    match connection.port {
        Some(port) => write!(shown, "{port}=")?,
        None => shown.push_str("-=")?,
    }
    show_runs(shown, connection.runs.as_slice())
}

/// `instance ITEM of MASTER NAME(CONNECTION|CONNECTION)`.
fn show_instance(shown: &mut String, instance: &InstancePart) -> Result<(), AllocError> {
    write!(shown, "instance {} of {}", instance.item, instance.master)?;
    show_name(shown, &instance.name)?;
    shown.push('(')?;
    for (i, connection) in instance.connections.as_slice().iter().enumerate() {
        if i > 0 {
            shown.push('|')?;
        }
        show_connection(shown, connection)?;
    }
    shown.push(')')
}

fn show_part(shown: &mut String, part: &ModulePart) -> Result<(), AllocError> {
    match part {
        ModulePart::Names(names) => show_names(shown, names),
        ModulePart::Gate(gate) => show_gate(shown, gate),
        ModulePart::Pair(pair) => show_pair(shown, pair),
        ModulePart::Instance(instance) => show_instance(shown, instance),
    }
}

/// Parts with blanks between.
pub(crate) fn show_parts(shown: &mut String, parts: &[ModulePart]) -> Result<(), AllocError> {
    for (i, part) in parts.iter().enumerate() {
        if i > 0 {
            shown.push(' ')?;
        }
        show_part(shown, part)?;
    }
    Ok(())
}
