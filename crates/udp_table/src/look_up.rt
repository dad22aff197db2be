ghost use Rattle.std.specs.Prelude.{◌≡◌, ◌≢◌, ◌<◌, ◌++◌, [], false, true, length, All};
ghost use Rattle.level_range.specs.declared.range.Logic.TheVariants.{Z};
ghost use Rattle.udp_table.specs.Symbols.{same_value};
ghost use Rattle.udp_table.specs.LookUp.{level_inputs, edge_inputs, matching_output, value_or_x as value_or_x_of, output_value as output_value_of, level_value, value_at, state_after_input, state_after, IsOutputOfEach, IsLevelInAnyOrder, IsStateInAnyOrder};

use crate::matching::{matches_change, matches_levels};
use crate::rows::UdpRow;
use crate::symbols::Sym;
use crate::udp::Udp;
use level_range::Logic;

/// The output of a level-sensitive row that matches.
#[tactic(auto, using(crate::proofs::Finding::matching_output_at))]
fn level_output(rows: &[UdpRow], before: &[Logic], after: &[Logic], state: Logic) -> Option<Sym>
    ensures { result ≡ matching_output rows.now (level_inputs (before.now ++ after.now)) state }
{
    for row in rows {
        if matches_levels(row, before, after, state) {
            return Some(row.out);
        }
    }
    None
}

/// The output of an edge-sensitive row that matches the change of the input between `before` and
/// `after`.
#[tactic(auto, using(crate::proofs::Finding::matching_output_at))]
fn edge_output(
    rows: &[UdpRow],
    before: &[Logic],
    was: Logic,
    now: Logic,
    after: &[Logic],
    state: Logic,
) -> Option<Sym>
    requires { same_value was now ≡ false }
    ensures { result ≡ matching_output rows.now (edge_inputs before.now was now after.now) state }
{
    for row in rows {
        if matches_change(row, before, was, now, after, state) {
            return Some(row.out);
        }
    }
    None
}

/// An output's value; `-` keeps the state.
fn output_value(out: Sym, state: Logic) -> Logic
    ensures { result ≡ output_value_of out state }
{
    match out {
        Sym::Zero => Logic::Zero,
        Sym::One => Logic::One,
        Sym::Same => state,
        _ => Logic::X,
    }
}

/// The value of an output, and x where there is none.
fn value_or_x(out: Option<Sym>, state: Logic) -> Logic
    ensures { result ≡ value_or_x_of out state }
{
    match out {
        Some(symbol) => output_value(symbol, state),
        None => Logic::X,
    }
}

/// The value of a combinational primitive (IEEE 1364-2005, 8.2): the output of a matching row,
/// whichever, else x.
pub fn level(udp: &Udp, ins: &[Logic]) -> Logic
    requires combinational { udp.now.sequential ≡ false }
    requires width { length ins.now ≡ udp.now.inputs }
    requires known { All (λ v. v ≢ Z) ins.now }
    ensures value { result ≡ level_value udp.now.rows ins.now }
    ensures any_row { IsOutputOfEach udp.now.rows ins.now result }
    ensures any_order { IsLevelInAnyOrder udp.now.rows ins.now result }
    ensures known { result ≢ Z }
{
    value_or_x(
        level_output(udp.rows.as_slice(), ins, &[], Logic::X),
        Logic::X,
    )
}

/// The state after the change of input `k` from `old` to `new`, where those before it have changed
/// and those after it haven't.
fn next_value(rows: &[UdpRow], old: &[Logic], new: &[Logic], k: usize, state: Logic) -> Logic
    requires old { k < length old.now }
    requires new { k < length new.now }
    requires differs { same_value (value_at old.now k) (value_at new.now k) ≡ false }
    ensures { result ≡ state_after_input rows.now old.now new.now k state }
{
    let later = &old[k + 1..];
    let out = match level_output(rows, &new[..k + 1], later, state) {
        Some(symbol) => Some(symbol),
        None => edge_output(rows, &new[..k], old[k], new[k], later, state),
    };
    value_or_x(out, state)
}

/// The state of a sequential primitive after its inputs became `new` (IEEE 1364-2005, 8.3 to 8.6).
///
/// The inputs that differ are applied one after the other in port order. After each, the state is
/// the output of a level-sensitive row that matches, else of an edge-sensitive row that does, else x.
/// In either kind of row the order of the rows doesn't matter.
pub fn after_changes(udp: &Udp, old: &[Logic], new: &[Logic], state: Logic) -> Logic
    requires sequential { udp.now.sequential ≡ true }
    requires old_width { length old.now ≡ udp.now.inputs }
    requires new_width { length new.now ≡ udp.now.inputs }
    requires old_known { All (λ v. v ≢ Z) old.now }
    requires new_known { All (λ v. v ≢ Z) new.now }
    requires state_known { state ≢ Z }
    ensures value { result ≡ state_after udp.now.rows [] old.now new.now state }
    ensures any_order { IsStateInAnyOrder udp.now.rows old.now new.now state result }
    ensures known { result ≢ Z }
{
    apply_changes(udp.rows.as_slice(), old, new, state)
}

/// The state after the inputs that differ, applied one after the other in port order.
fn apply_changes(rows: &[UdpRow], old: &[Logic], new: &[Logic], state: Logic) -> Logic
    requires { length old.now ≡ length new.now }
    ensures { result ≡ state_after rows.now [] old.now new.now state }
{
    let mut present = state;
    for k in 0..new.len() {
        if old[k] != new[k] {
            present = next_value(rows, old, new, k, present);
        }
    }
    present
}
