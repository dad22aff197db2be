//! What is to be written for a call.

ghost use Rattle.std.specs.Prelude.{◌≡◌, ◌<◌, ◌≤◌, ◌⊎◌, ◌++◌, [], codes, IfOk};
ghost use Rattle.gate_net.specs.Sound.{IsSound, IsLawful};
ghost use Rattle.cfsim.specs.Answer.{answer_of_run};
ghost use Rattle.cfsim.specs.Messages.{cannot_read_line, limit_line, fault_line, unbuilt_line, oscillates_line};
ghost use Rattle.cfsim.specs.Reports.{answer_of, IsAnswerTo};

use crate::line_fault::LineFault;
use crate::refusal::Refusal;
use crate::status::Status;
use byte_lists::Bytes;
use first_machine::simulate;
use gate_net::{Netlist, Stimulus};
use itoa::Buffer;
use std::alloc::{AllocError, Global};

/// The most passes of a time step.
const PASS_LIMIT: u32 = 1000;

/// The status of a call, and its texts for the output and the errors.
#[derive(Drop)]
pub struct Report {
    pub status: Status,
    pub out: Bytes,
    pub err: Bytes,
}

/// A line about a name or a number.
fn line(alloc: Global, before: &[u8], name: &[u8], after: &[u8]) -> Result<Bytes, AllocError>
    ensures { IfOk result (λ text. text ≡ before.now ++ name.now ++ after.now) }
{
    let mut text = Vec::from_slice(alloc, before)?;
    text.extend_from_slice(name)?;
    text.extend_from_slice(after)?;
    Ok(Bytes::from_vec(text))
}

fn cannot_read_line(alloc: Global, name: &str) -> Result<Bytes, AllocError>
    ensures { IfOk result (λ text. text ≡ cannot_read_line name.now) }
{
    line(alloc, b"cfsim: cannot read ", name.as_bytes(), b"\n")
}

fn limit_line(alloc: Global, name: &str) -> Result<Bytes, AllocError>
    ensures { IfOk result (λ text. text ≡ limit_line name.now) }
{
    line(alloc, b"", name.as_bytes(), b": limit file\n")
}

/// A line about a line of a file.
fn fault_line(alloc: Global, name: &str, number: u64, fault: LineFault) -> Result<Bytes, AllocError>
    ensures { IfOk result (λ text. text ≡ fault_line name.now number fault) }
{
    let mut buffer = Buffer::new();
    let number = buffer.format(number).as_bytes();
    let mut text = Vec::from_slice(alloc, name.as_bytes())?;
    text.extend_from_slice(b":")?;
    text.extend_from_slice(number)?;
    text.extend_from_slice(b": ")?;
    text.extend_from_slice(fault.message())?;
    text.extend_from_slice(b"\n")?;
    Ok(Bytes::from_vec(text))
}

fn unbuilt_line(alloc: Global, name: &str) -> Result<Bytes, AllocError>
    ensures { IfOk result (λ text. text ≡ unbuilt_line name.now) }
{
    line(alloc, b"", name.as_bytes(), b": unbuilt\n")
}

fn oscillates_line(alloc: Global, tick: u64) -> Result<Bytes, AllocError>
    ensures { IfOk result (λ text. text ≡ oscillates_line tick) }
{
    let mut buffer = Buffer::new();
    let tick = buffer.format(tick).as_bytes();
    line(alloc, b"cfsim: good circuit oscillates at ", tick, b"\n")
}

/// A report with no text for the output.
fn report_of_err(alloc: Global, status: Status, err: Bytes) -> Report
    ensures status { result.status ≡ status }
    ensures out { result.out ≡ [] }
    ensures err { result.err ≡ err }
{
    Report {
        status,
        out: Bytes::from_vec(Vec::new(alloc)),
        err,
    }
}

/// The report of a file's refusal. One that could be read has the status given.
pub fn report_of_refusal(
    alloc: Global,
    refusal: Refusal,
    status: u8,
    name: &str,
) -> Result<Report, AllocError>
    requires { status ≤ 8 }
    ensures { IfOk result (λ report. IsAnswerTo refusal status name.now (answer_of report)) }
{
    match refusal {
        Refusal::Memory => Err(AllocError),
        Refusal::Read => {
            let text = cannot_read_line(alloc, name)?;
            Ok(report_of_err(alloc, Status::new(1), text))
        }
        Refusal::TooLong => {
            let text = limit_line(alloc, name)?;
            Ok(report_of_err(alloc, Status::new(status), text))
        }
        Refusal::Faulty(fault, number) => {
            let text = fault_line(alloc, name, number, fault)?;
            Ok(report_of_err(alloc, Status::new(status), text))
        }
        Refusal::Unbuilt => {
            let text = unbuilt_line(alloc, name)?;
            Ok(report_of_err(alloc, Status::new(status), text))
        }
    }
}

/// The report of a run.
pub fn report_of_run(
    alloc: Global,
    netlist: &Netlist,
    stimulus: &Stimulus,
) -> Result<Report, AllocError>
    requires sound { IsSound netlist.now }
    requires lawful { IsLawful netlist.now stimulus.now }
    ensures answer { IfOk result (λ report. answer_of report
        ≡ answer_of_run netlist.now stimulus.now) }
    ensures statuses { IfOk result (λ report. (report.status ≡ 0) ⊎ (report.status ≡ 6)) }
{
    let simulated = simulate(alloc, netlist, stimulus, PASS_LIMIT)?;
    match simulated.oscillated {
        Some(tick) => {
            let err = oscillates_line(alloc, tick)?;
            Ok(Report {
                status: Status::new(6),
                out: simulated.trace,
                err,
            })
        }
        None => Ok(Report {
            status: Status::new(0),
            out: simulated.trace,
            err: Bytes::from_vec(Vec::new(alloc)),
        }),
    }
}
