ghost use Rattle.std.specs.Prelude.{◌≡◌, ◌<◌};

mod delay_rows;
mod models;
mod netlists;
mod pass_rows;

use cell_step::{PassEnd, Steps};
use delay_rows::delays;
use flat_net::Flat;
use level_range::Range;
use models::{RunRow, TimeRow};
use netlists::netlist_of;
use pass_rows::{passes, primitives};
use plain_sim::PlainRun;
use std::alloc::{AllocError, Global};
use std::marker::Brand;
use std::process::Abort;
use std::sync::ledger::{Blank, Ledger};
use std::test::Fail;

/// Signals of these bounds.
fn signals(rt: &impl Abort, alloc: Global, bounds: &[(i8, i8)]) -> Result<Vec<Range>, AllocError> {
    let mut signals = Vec::new(alloc);
    for (lo, hi) in bounds {
        assert!(rt; -7 <= *lo && *lo <= *hi && *hi <= 7);
        signals.push(Range::new(*lo, *hi))?;
    }
    Ok(signals)
}

/// What is seen of a net is as a row says.
fn sees(rt: &impl Abort, run: &PlainRun<'_>, flat: &Flat, net: u32, seen: (i8, i8), n: usize)
    requires { run.now.netlist ≡ flat.now }
{
    assert!(rt; net < flat.net_count());
    let signal = run.seen(net);
    assert_eq!(rt; (signal.lo, signal.hi), seen, "run {n}");
}

/// What is seen of the outputs is as a row says.
fn sees_all(
    rt: &impl Abort,
    run: &PlainRun<'_>,
    flat: &Flat,
    outputs: &[u32],
    seen: &[(i8, i8)],
    n: usize,
)
    requires { run.now.netlist ≡ flat.now }
{
    assert_eq!(rt; outputs.len(), seen.len());
    for (k, net) in outputs.iter().enumerate() {
        assert!(rt; k < seen.len());
        sees(rt, run, flat, *net, seen[k], n);
    }
}

/// Begins a time.
fn begin(
    rt: &impl Abort,
    alloc: Global,
    flat: &Flat,
    time: &TimeRow,
    run: &mut PlainRun<'_>,
) -> Result<(), AllocError>
    requires { run.old.netlist ≡ flat.now }
    ensures { run.new.netlist ≡ flat.now }
{
    let inputs = signals(rt, alloc, time.inputs)?;
    assert!(rt; time.tick <= 1 << 48);
    assert!(rt; inputs.as_slice().len() == flat.inputs().as_slice().len());
    run.begin_time(time.tick, inputs.as_slice());
    Ok(())
}

/// How a pass of a time ends, by how many were made before it.
fn end_of(time: &TimeRow, made: usize) -> PassEnd {
    if made < time.passes.len().saturating_sub(1) {
        PassEnd::More
    } else {
        time.end
    }
}

/// A pass.
fn pass<L: Ledger>(
    rt: &impl Abort,
    flat: &Flat,
    outputs: &[u32],
    seen: &[(i8, i8)],
    end: PassEnd,
    run: &mut PlainRun<'_>,
    steps: &mut Steps<L>,
    n: usize,
)
    requires { run.old.netlist ≡ flat.now }
    ensures { run.new.netlist ≡ flat.now }
{
    assert_eq!(rt; run.pass(steps), end, "run {n}");
    sees_all(rt, run, flat, outputs, seen, n);
}

/// The passes of a time.
fn make_passes<L: Ledger>(
    rt: &impl Abort,
    flat: &Flat,
    outputs: &[u32],
    time: &TimeRow,
    run: &mut PlainRun<'_>,
    steps: &mut Steps<L>,
    n: usize,
)
    requires { run.old.netlist ≡ flat.now }
    ensures { run.new.netlist ≡ flat.now }
{
    for (made, seen) in time.passes.iter().enumerate() {
        pass(rt, flat, outputs, seen, end_of(time, made), run, steps, n);
    }
}

/// The times of a run.
fn make_times<L: Ledger>(
    rt: &impl Abort,
    alloc: Global,
    flat: &Flat,
    row: &RunRow,
    run: &mut PlainRun<'_>,
    steps: &mut Steps<L>,
    n: usize,
) -> Result<(), AllocError>
    requires { run.old.netlist ≡ flat.now }
{
    for time in row.times {
        begin(rt, alloc, flat, time, run)?;
        make_passes(rt, flat, row.outputs, time, run, steps, n);
        assert_eq!(rt; run.next_time(), time.next, "run {n}");
    }
    Ok(())
}

/// A run.
fn walk<L: Ledger>(
    rt: &impl Abort,
    alloc: Global,
    row: &RunRow,
    steps: &mut Steps<L>,
    n: usize,
) -> Result<(), Fail> {
    let flat = netlist_of(rt, alloc, row)?;
    let mut run = PlainRun::new(alloc, &flat, row.limit)?;
    make_times(rt, alloc, &flat, row, &mut run, steps, n)?;
    Ok(())
}

/// All runs.
fn walk_all<L: Ledger>(
    rt: &impl Abort,
    alloc: Global,
    blank: Blank,
    rows: &[RunRow],
) -> Result<(), Fail>
    requires name { blank.name ≡ L.name }
    requires parts { blank.parts ≡ L.parts }
    requires some { 0 < blank.parts }
{
    let mut steps = Steps::<L>::new(blank);
    for (n, row) in rows.iter().enumerate() {
        walk(rt, alloc, row, &mut steps, n)?;
    }
    Ok(())
}

/// All runs, with a counter of steps.
fn count_steps(rt: &impl Abort, alloc: Global, rows: &[RunRow]) -> Result<(), Fail> {
    walk_all::<Brand>(rt, alloc, Blank::new(1), rows)
}

#[test]
fn charges_decay_and_changes_wait_for_their_times(rt: HostRuntime) -> Result<(), Fail> {
    count_steps(&rt, rt.alloc(), delays())
}

#[test]
fn primitives_take_changes_in_port_order(rt: HostRuntime) -> Result<(), Fail> {
    count_steps(&rt, rt.alloc(), primitives())
}

#[test]
fn passes_are_made_up_to_their_limit(rt: HostRuntime) -> Result<(), Fail> {
    count_steps(&rt, rt.alloc(), passes())
}
