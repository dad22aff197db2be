//! The bits of runs, by their numbers.
ghost use Rattle.std.specs.Prelude.{◌≡◌, ℕ, ◌+◌, ◌∷◌, [], ◌++◌, IfOk, OnOk};
ghost use Rattle.std.specs.List.{range_with_len, slice_index_or};
ghost use Rattle.module_scope.specs.Scopes.{scope_net};
ghost use Rattle.item_parts.specs.Widths.{net_range};
ghost use Rattle.expression_bits.specs.Runs.{run_width};
ghost use Rattle.netlist_plan.specs.Unnamed.{literal_count};
ghost use Rattle.netlist_plan.specs.Nets.{bit_offset, run_bits, select_offset};
ghost use Rattle.netlist_plan.specs.Elements.{runs_bits, terminal_bits};

use crate::numbers::{number_after, push_range, sum_of};
use expression_bits::{BitRun, RunList, run_width};
use module_nets::NetTable;
use module_scope::Scope;
use std::alloc::{AllocError, Global};
use v_tree::{RangeBounds, Select};

/// The number at an index, and 0 where there is none.
pub fn bit_at(bits: &[u32], index: usize) -> u32
    ensures { result ≡ slice_index_or bits.now index 0 }
{
    bits.get(index).copied().unwrap_or(0)
}

/// The range of the net of a name, where there is one and it is a vector.
pub fn name_range(scope: &Scope, name: &[u8]) -> Option<RangeBounds>
    ensures { result ≡ net_range (scope_net scope.now name.now) }
{
    match scope.net_of(name) {
        Some(net) => net.range,
        None => None,
    }
}

/// How far a bit is from the left bound of its range; a scalar has one bit.
fn bit_offset(range: Option<RangeBounds>, index: u32) -> u32
    ensures { result ≡ bit_offset range index }
{
    match range {
        Some(range) => range.left.abs_diff(index),
        None => 0,
    }
}

/// How far the leftmost bit of a select is from the left.
pub fn select_offset(range: Option<RangeBounds>, select: Option<Select>) -> u32
    ensures { result ≡ select_offset range select }
{
    match select {
        Some(select) => bit_offset(range, select.left),
        None => 0,
    }
}

/// The first bit of a net or of bits of it.
fn pick_first(
    scope: &Scope,
    nets: &NetTable,
    name: &[u8],
    select: Option<Select>,
) -> Result<u64, AllocError>
    ensures { IfOk result (λ first. (number : ℕ) →
        run_bits scope.now nets.now number (BitRun.Net name.now select)
        ≡ range_with_len first (run_width scope.now (BitRun.Net name.now select))) }
{
    let offset = select_offset(name_range(scope, name), select);
    sum_of(nets.name_first(name), u64::from(offset))
}

/// The first bit of a run, where it has a number if it is a literal.
fn run_first(scope: &Scope, nets: &NetTable, number: u32, run: &BitRun) -> Result<u64, AllocError>
    ensures { IfOk result (λ first. run_bits scope.now nets.now number run.now
        ≡ range_with_len first (run_width scope.now run.now)) }
{
    match run {
        BitRun::Net(name, select) => pick_first(scope, nets, name.as_slice(), *select),
        BitRun::Literal(_) => Ok(nets.literal_first(number as usize)),
    }
}

/// Adds the bits of a run, where it has a number if it is a literal.
fn push_run_bits(
    bits: &mut Vec<u32>,
    scope: &Scope,
    nets: &NetTable,
    number: u32,
    run: &BitRun,
) -> Result<(), AllocError>
    ensures { OnOk result (bits.new.items
        ≡ bits.old.items ++ run_bits scope.now nets.now number run.now) }
{
    let first = run_first(scope, nets, number, run)?;
    push_range(bits, first, run_width(scope, run))
}

/// How many literals a run is.
pub fn literals_in(run: &BitRun) -> usize
    ensures { result ≡ literal_count (run.now ∷ []) }
{
    match run {
        BitRun::Net(_, _) => 0,
        BitRun::Literal(_) => 1,
    }
}

/// The bits of runs from the left, and the number of the first literal behind them.
#[derive(Drop)]
pub struct RunBits {
    pub bits: Vec<u32>,
    pub next: u32,
}

/// The bits of runs, where the first literal among them has a number.
pub fn runs_bits(
    alloc: Global,
    scope: &Scope,
    nets: &NetTable,
    number: u32,
    runs: &[BitRun],
) -> Result<RunBits, AllocError>
    ensures bits { IfOk result (λ of.
        of.bits.items ≡ runs_bits scope.now nets.now number runs.now) }
    ensures next { IfOk result (λ of. of.next ≡ number + literal_count runs.now) }
{
    let mut bits = Vec::new(alloc);
    let mut next = number;
    for run in runs {
        push_run_bits(&mut bits, scope, nets, next, run)?;
        next = number_after(next, literals_in(run))?;
    }
    Ok(RunBits { bits, next })
}

/// The one bit of each terminal, where the first literal among them has a number.
pub fn terminal_bits(
    alloc: Global,
    scope: &Scope,
    nets: &NetTable,
    number: u32,
    terminals: &[RunList],
) -> Result<Vec<u32>, AllocError>
    ensures { IfOk result (λ bits.
        bits.items ≡ terminal_bits scope.now nets.now number terminals.now) }
{
    let mut bits = Vec::new(alloc);
    let mut next = number;
    for runs in terminals {
        let own = runs_bits(alloc, scope, nets, next, runs.as_slice())?;
        bits.push(bit_at(own.bits.as_slice(), 0))?;
        next = own.next;
    }
    Ok(bits)
}
