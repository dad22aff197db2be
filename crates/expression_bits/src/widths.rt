//! The widths of runs.
ghost use Rattle.std.specs.Prelude.{◌≡◌, ◌<◌, ◌^◌};
ghost use Rattle.expression_bits.specs.Runs.{run_width, runs_width};

use crate::runs::BitRun;
use item_parts::name_width;
use module_scope::Scope;

/// How many bits a run has. A name without a net counts as a scalar.
pub fn run_width(scope: &Scope, run: &BitRun) -> u64
    ensures { result ≡ run_width scope.now run.now }
{
    match run {
        BitRun::Net(name, select) => name_width(scope, name.as_slice(), *select),
        BitRun::Literal(bits) => bits.as_slice().len() as u64,
    }
}

/// How many bits runs have.
pub fn runs_width(scope: &Scope, runs: &[BitRun]) -> u128
    ensures { result ≡ runs_width scope.now runs.now }
{
    let mut width: u128 = 0;
    for run in runs {
        width += u128::from(run_width(scope, run));
    }
    width
}
