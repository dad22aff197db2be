//! The runs of the right sides of assignments.
ghost use Rattle.std.specs.Prelude.{◌≡◌, ◌+◌, ◌∷◌, [], IfOk};
ghost use Rattle.expression_bits.specs.Runs.{fit_runs, literal_alone, runs_width, value_runs, zeros_run};

use crate::literals::{number_bits, value_bits};
use crate::places::{literal_runs, parts_runs, pick_runs};
use crate::runs::{BitRun, RunList};
use crate::widths::runs_width;
use module_scope::Scope;
use sqlite_items::Items;
use std::alloc::{AllocError, Global};
use v_lexer::Bit;
use v_tree::Expr;

/// The runs of a right side, the leftmost first, and how many bits are cut on the left of all of them.
#[derive(Debug, Drop)]
pub struct ValueRuns {
    pub runs: RunList,
    pub cut: u128,
}

/// A literal of so many zeros, and no run where that is none.
fn zeros_run(alloc: Global, count: usize) -> Result<RunList, AllocError>
    ensures { IfOk result (λ runs. runs ≡ zeros_run count) }
{
    if count == 0 {
        Ok(Items::new(alloc))
    } else {
        literal_runs(alloc, vec![in alloc; Bit::Zero; count]?)
    }
}

/// Runs for so many bits: zeros on the left of them, or so many cut on the left.
fn fit_runs(
    alloc: Global,
    scope: &Scope,
    width: usize,
    runs: RunList,
) -> Result<ValueRuns, AllocError>
    ensures { IfOk result (λ value. value ≡ fit_runs width (runs_width scope.now runs) runs) }
{
    let own = runs_width(scope, runs.as_slice());
    let mut all = zeros_run(alloc, (width as u128).saturating_sub(own) as usize)?;
    all.append(runs)?;
    Ok(ValueRuns {
        runs: all,
        cut: own.saturating_sub(width as u128),
    })
}

/// A literal alone, which has the width.
fn literal_alone(alloc: Global, bits: Vec<Bit>) -> Result<ValueRuns, AllocError>
    ensures { IfOk result (λ value. value ≡ literal_alone (BitRun.Literal bits.items)) }
{
    Ok(ValueRuns {
        runs: literal_runs(alloc, bits)?,
        cut: 0,
    })
}

/// The runs of an expression that is the right side of an assignment to so many bits, which is extended
/// or cut on the left (IEEE 1364-2005, 5.4.1 and 5.5). What they have less what is cut is the width.
pub fn value_runs(
    alloc: Global,
    scope: &Scope,
    width: usize,
    expr: &Expr,
) -> Result<ValueRuns, AllocError>
    ensures value { IfOk result (λ value. value ≡ value_runs scope.now width expr.now) }
    ensures width { IfOk result (λ value. runs_width scope.now value.runs ≡ width + value.cut) }
{
    match expr {
        Expr::Pick(pick) => fit_runs(alloc, scope, width, pick_runs(alloc, pick)?),
        Expr::Number(_, number) => literal_alone(alloc, number_bits(alloc, width, *number)?),
        Expr::Based(_, literal) => literal_alone(alloc, value_bits(alloc, width, literal)?),
        Expr::Concat(_, parts) => {
            fit_runs(alloc, scope, width, parts_runs(alloc, parts.as_slice())?)
        }
    }
}
