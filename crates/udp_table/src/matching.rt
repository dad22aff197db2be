ghost use Rattle.std.specs.Prelude.{◌≡◌, ◌++◌, ◌∷◌, false};
ghost use Rattle.udp_table.specs.Symbols.{admits, same_value as same_value_of};
ghost use Rattle.udp_table.specs.Pairs.{pairwise};
ghost use Rattle.udp_table.specs.Rows.{admits_all, admits_state as admits_state_of, matches};
ghost use Rattle.udp_table.specs.Tests.{hold as hold_of};
ghost use Rattle.udp_table.specs.LookUp.{level_inputs, edge_inputs};

use crate::rows::UdpRow;
use crate::symbols::Sym;
use crate::values::{has_change, has_value};
use level_range::Logic;

/// Whether each symbol has the value at its place.
#[tactic(auto, using(crate::proofs::Pairs::pairwise_at))]
fn hold(symbols: &[Sym], values: &[Logic]) -> bool
    ensures { result ≡ hold_of symbols.now values.now }
{
    if symbols.len() != values.len() {
        return false;
    }
    for (k, symbol) in symbols.iter().enumerate() {
        if !has_value(*symbol, values[k]) {
            return false;
        }
    }
    true
}

/// Whether the symbols admit inputs that all keep their values.
fn admit_levels(symbols: &[Sym], before: &[Logic], after: &[Logic]) -> bool
    ensures { result ≡ admits_all symbols.now (level_inputs (before.now ++ after.now)) }
{
    let n = before.len();
    if symbols.len() < n {
        return false;
    }
    if !hold(&symbols[..n], before) {
        return false;
    }
    hold(&symbols[n..], after)
}

/// Whether the symbols admit inputs of which one changes.
fn admit_change(symbols: &[Sym], before: &[Logic], was: Logic, now: Logic, after: &[Logic]) -> bool
    requires { same_value_of was now ≡ false }
    ensures { result ≡ admits_all symbols.now (edge_inputs before.now was now after.now) }
{
    let n = before.len();
    if symbols.len() <= n {
        return false;
    }
    if !has_change(symbols[n], was, now) {
        return false;
    }
    if !hold(&symbols[..n], before) {
        return false;
    }
    hold(&symbols[n + 1..], after)
}

/// Whether the state field admits the state.
fn admits_state(field: Option<Sym>, state: Logic) -> bool
    ensures { result ≡ admits_state_of field state }
{
    match field {
        None => true,
        Some(symbol) => has_value(symbol, state),
    }
}

/// Whether a row matches the inputs `before` and `after`, all of which keep their values, and the
/// state.
pub fn matches_levels(row: &UdpRow, before: &[Logic], after: &[Logic], state: Logic) -> bool
    ensures { result ≡ matches row.now (level_inputs (before.now ++ after.now)) state }
{
    admit_levels(row.ins.as_slice(), before, after) && admits_state(row.state, state)
}

/// Whether a row matches the change of the input between `before` and `after`, and the state.
pub fn matches_change(
    row: &UdpRow,
    before: &[Logic],
    was: Logic,
    now: Logic,
    after: &[Logic],
    state: Logic,
) -> bool
    requires { same_value_of was now ≡ false }
    ensures { result ≡ matches row.now (edge_inputs before.now was now after.now) state }
{
    admit_change(row.ins.as_slice(), before, was, now, after) && admits_state(row.state, state)
}
