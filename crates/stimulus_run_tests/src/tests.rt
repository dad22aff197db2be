ghost use Rattle.std.specs.Prelude.{◌≡◌, ◌<◌, IfOk};
ghost use Rattle.vector_text.specs.Lawful.{IsLawful};

mod models;
mod netlists;
mod ring_rows;
mod run_rows;

use cell_step::Steps;
use flat_net::Flat;
use level_range::Logic;
use models::{RunRow, StepRow};
use netlists::netlist_of;
use ring_rows::rings;
use run_rows::runs;
use std::alloc::{AllocError, Global};
use std::marker::Brand;
use std::process::Abort;
use std::sync::ledger::{Blank, Ledger};
use std::test::Fail;
use stimulus_run::{StepEnd, StimulusRun};
use vector_text::{Stimulus, StimulusWhat, WantedList, bind, read_vectors};

fn character(wanted: Option<Logic>) -> char {
    match wanted {
        Some(Logic::Zero) => '0',
        Some(Logic::One) => '1',
        Some(Logic::X) => 'x',
        Some(Logic::Z) => 'z',
        None => '-',
    }
}

fn push_wanted(text: &mut String, wanted: &WantedList) -> Result<(), AllocError> {
    text.push('?')?;
    for value in wanted.as_slice() {
        text.push(character(*value))?;
    }
    Ok(())
}

/// Nothing, `?` for a strobe, or `?` and the expected values.
fn read_shown(alloc: Global, read: Option<&StimulusWhat>) -> Result<String, AllocError> {
    let mut text = String::new(alloc);
    match read {
        None => {}
        Some(StimulusWhat::Values(_)) => text.push('=')?,
        Some(StimulusWhat::Strobe) => text.push('?')?,
        Some(StimulusWhat::Expect(wanted)) => push_wanted(&mut text, wanted)?,
    }
    Ok(text)
}

/// What is seen of a net is as a row says.
fn sees(rt: &impl Abort, run: &StimulusRun<'_>, flat: &Flat, net: u32, seen: (i8, i8), n: usize)
    requires { run.now.netlist ≡ flat.now }
{
    assert!(rt; net < flat.net_count());
    let signal = run.seen(net);
    assert_eq!(rt; (signal.lo, signal.hi), seen, "run {n}");
}

/// What is seen of the outputs is as a row says.
fn sees_all(
    rt: &impl Abort,
    run: &StimulusRun<'_>,
    flat: &Flat,
    outputs: &[u32],
    seen: &[(i8, i8)],
    n: usize,
)
    requires { run.now.netlist ≡ flat.now }
{
    assert_eq!(rt; outputs.len(), seen.len());
    for (k, net) in outputs.iter().enumerate() {
        assert!(rt; k < seen.len());
        sees(rt, run, flat, *net, seen[k], n);
    }
}

/// The next step, which keeps the netlist.
fn step<L: Ledger>(run: &mut StimulusRun<'_>, steps: &mut Steps<L>) -> StepEnd
    ensures { run.new.netlist ≡ run.old.netlist }
{
    run.next_step(steps)
}

/// The next step is as a row says.
fn makes<L: Ledger>(
    rt: &impl Abort,
    alloc: Global,
    flat: &Flat,
    outputs: &[u32],
    row: &StepRow,
    run: &mut StimulusRun<'_>,
    steps: &mut Steps<L>,
    n: usize,
) -> Result<(), AllocError>
    requires { run.old.netlist ≡ flat.now }
    ensures { run.new.netlist ≡ flat.now }
{
    assert_eq!(rt; step(run, steps), row.end, "run {n}");
    sees_all(rt, run, flat, outputs, row.seen, n);
    let read = read_shown(alloc, run.strobe())?;
    assert_eq!(rt; read.as_str(), row.read, "run {n}");
    Ok(())
}

/// The steps of a run.
fn make_steps<L: Ledger>(
    rt: &impl Abort,
    alloc: Global,
    flat: &Flat,
    stimulus: &Stimulus,
    row: &RunRow,
    steps: &mut Steps<L>,
    n: usize,
) -> Result<(), AllocError>
    requires { IsLawful flat.now.parts stimulus.now }
{
    assert!(rt; row.limit >= 1);
    let mut run = StimulusRun::new(alloc, flat, stimulus, row.limit)?;
    for step in row.steps {
        makes(rt, alloc, flat, row.outputs, step, &mut run, steps, n)?;
    }
    Ok(())
}

/// The stimulus of a text.
fn stimulus_of(rt: &impl Abort, alloc: Global, text: &str, flat: &Flat) -> Result<Stimulus, Fail>
    ensures { IfOk result (λ stimulus. IsLawful flat.now.parts stimulus) }
{
    assert!(rt; text.len() <= 1_000);
    let vectors = read_vectors(alloc, text.as_bytes())?;
    Ok(bind(alloc, &vectors, flat)?)
}

/// A run.
fn walk<L: Ledger>(
    rt: &impl Abort,
    alloc: Global,
    row: &RunRow,
    steps: &mut Steps<L>,
    n: usize,
) -> Result<(), Fail> {
    let flat = netlist_of(rt, alloc, row)?;
    let stimulus = stimulus_of(rt, alloc, row.text, &flat)?;
    make_steps(rt, alloc, &flat, &stimulus, row, steps, n)?;
    Ok(())
}

/// All runs.
fn walk_all<L: Ledger>(
    rt: &impl Abort,
    alloc: Global,
    blank: Blank,
    rows: &[RunRow],
) -> Result<(), Fail>
    requires name { blank.name ≡ L.name }
    requires parts { blank.parts ≡ L.parts }
    requires some { 0 < blank.parts }
{
    let mut steps = Steps::<L>::new(blank);
    for (n, row) in rows.iter().enumerate() {
        walk(rt, alloc, row, &mut steps, n)?;
    }
    Ok(())
}

/// All runs, with a counter of steps.
fn count_steps(rt: &impl Abort, alloc: Global, rows: &[RunRow]) -> Result<(), Fail> {
    walk_all::<Brand>(rt, alloc, Blank::new(1), rows)
}

#[test]
fn steps_are_made_at_lines_due_times_and_the_end(rt: HostRuntime) -> Result<(), Fail> {
    count_steps(&rt, rt.alloc(), runs())
}

#[test]
fn a_run_is_over_where_it_oscillates(rt: HostRuntime) -> Result<(), Fail> {
    count_steps(&rt, rt.alloc(), rings())
}
