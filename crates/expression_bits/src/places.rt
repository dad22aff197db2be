//! The runs of terminals and connections.
ghost use Rattle.std.specs.Prelude.{◌≡◌, ◌∷◌, [], ◌++◌, IfOk, OnOk};
ghost use Rattle.std.specs.List.{flat_map};
ghost use Rattle.expression_bits.specs.Runs.{part_runs, pick_run, place_runs};

use crate::literals::{number_bits, place_bits};
use crate::runs::{BitRun, RunList};
use byte_lists::Bytes;
use sqlite_items::Items;
use std::alloc::{AllocError, Global};
use v_lexer::{Bit, BitList};
use v_tree::{Expr, Pick};

/// The run of a net or of bits of it.
pub fn pick_run(alloc: Global, pick: &Pick) -> Result<BitRun, AllocError>
    ensures { IfOk result (λ run. run ≡ pick_run pick.now) }
{
    let name = Vec::from_slice(alloc, pick.name.text.as_slice())?;
    Ok(BitRun::Net(Bytes::from_vec(name), pick.select))
}

/// The run of a literal's bits.
pub fn literal_run(bits: Vec<Bit>) -> BitRun
    ensures { result ≡ BitRun.Literal bits.items }
{
    BitRun::Literal(BitList::from_vec(bits))
}

/// Adds the runs of a part of a concatenation.
fn push_part(alloc: Global, runs: &mut RunList, part: &Expr) -> Result<(), AllocError>
    ensures { OnOk result (runs.new ≡ runs.old ++ part_runs part.now) }
{
    match part {
        Expr::Pick(pick) => runs.push(pick_run(alloc, pick)?)?,
        Expr::Number(_, number) => runs.push(literal_run(number_bits(alloc, 32, *number)?))?,
        Expr::Based(_, literal) => {
            runs.push(BitRun::Literal(literal.bits.copied(alloc)?))?;
        }
        Expr::Concat(_, parts) => {
            for inner in parts.as_slice() {
                push_part(alloc, runs, inner)?;
            }
        }
    }
    Ok(())
}

/// The runs of the parts of a concatenation.
pub fn parts_runs(alloc: Global, parts: &[Expr]) -> Result<RunList, AllocError>
    ensures { IfOk result (λ runs. runs ≡ flat_map part_runs parts.now) }
{
    let mut runs = Items::new(alloc);
    for part in parts {
        push_part(alloc, &mut runs, part)?;
    }
    Ok(runs)
}

/// One run.
fn one_run(alloc: Global, run: BitRun) -> Result<RunList, AllocError>
    ensures { IfOk result (λ runs. runs ≡ run ∷ []) }
{
    let mut runs = Items::new(alloc);
    runs.push(run)?;
    Ok(runs)
}

/// The run of a net or of bits of it, alone.
pub fn pick_runs(alloc: Global, pick: &Pick) -> Result<RunList, AllocError>
    ensures { IfOk result (λ runs. runs ≡ pick_run pick.now ∷ []) }
{
    one_run(alloc, pick_run(alloc, pick)?)
}

/// The run of a literal's bits, alone.
pub fn literal_runs(alloc: Global, bits: Vec<Bit>) -> Result<RunList, AllocError>
    ensures { IfOk result (λ runs. runs ≡ BitRun.Literal bits.items ∷ []) }
{
    one_run(alloc, literal_run(bits))
}

/// The runs of bits of an expression that is a terminal or a connection of a width (IEEE 1364-2005,
/// 5.1.14 and 3.5.1), the leftmost first.
pub fn place_runs(alloc: Global, width: usize, expr: &Expr) -> Result<RunList, AllocError>
    ensures { IfOk result (λ runs. runs ≡ place_runs width expr.now) }
{
    match expr {
        Expr::Pick(pick) => pick_runs(alloc, pick),
        Expr::Number(_, number) => literal_runs(alloc, number_bits(alloc, width, *number)?),
        Expr::Based(_, literal) => literal_runs(alloc, place_bits(alloc, width, literal)?),
        Expr::Concat(_, parts) => parts_runs(alloc, parts.as_slice()),
    }
}
