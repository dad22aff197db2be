ghost use Rattle.std.specs.Prelude.{◌≡◌};
ghost use Rattle.udp_table.specs.Tests.{both_have as both_have_of, share_value as share_value_of, both_contain as both_contain_of, share_change as share_change_of, meet as meet_of, meet_all as meet_all_of, meet_state as meet_state_of, clash_test};

use crate::rows::UdpRow;
use crate::symbols::Sym;
use crate::values::{has_change, has_value};
use crate::well_formed::is_value_symbol;
use level_range::Logic;

/// Whether the two symbols have the value.
fn both_have(a: Sym, b: Sym, value: Logic) -> bool
    ensures { result ≡ both_have_of a b value }
{
    has_value(a, value) && has_value(b, value)
}

/// Whether the two symbols have a value in common.
fn share_value(a: Sym, b: Sym) -> bool
    ensures { result ≡ share_value_of a b }
{
    both_have(a, b, Logic::Zero) || both_have(a, b, Logic::One) || both_have(a, b, Logic::X)
}

/// Whether the two symbols contain the change.
fn both_contain(a: Sym, b: Sym, was: Logic, now: Logic) -> bool
    ensures { result ≡ both_contain_of a b was now }
{
    has_change(a, was, now) && has_change(b, was, now)
}

/// Whether the two symbols have a change in common.
fn share_change(a: Sym, b: Sym) -> bool
    ensures { result ≡ share_change_of a b }
{
    both_contain(a, b, Logic::Zero, Logic::One)
        || both_contain(a, b, Logic::Zero, Logic::X)
        || both_contain(a, b, Logic::One, Logic::Zero)
        || both_contain(a, b, Logic::One, Logic::X)
        || both_contain(a, b, Logic::X, Logic::Zero)
        || both_contain(a, b, Logic::X, Logic::One)
}

/// Whether there is a value or a change that the two symbols have in common.
fn meet(a: Sym, b: Sym) -> bool
    ensures { result ≡ meet_of a b }
{
    share_value(a, b) || share_change(a, b)
}

/// Whether the symbols of two rows meet, input by input.
#[tactic(auto, using(crate::proofs::Pairs::pairwise_at))]
fn meet_all(a: &[Sym], b: &[Sym]) -> bool
    ensures { result ≡ meet_all_of a.now b.now }
{
    if a.len() != b.len() {
        return false;
    }
    for (k, symbol) in a.iter().enumerate() {
        if !meet(*symbol, b[k]) {
            return false;
        }
    }
    true
}

/// Whether two state fields have a value in common.
fn meet_state(a: Option<Sym>, b: Option<Sym>) -> bool
    ensures { result ≡ meet_state_of a b }
{
    match (a, b) {
        (None, None) => true,
        (None, Some(symbol)) | (Some(symbol), None) => is_value_symbol(symbol),
        (Some(x), Some(y)) => share_value(x, y),
    }
}

/// Whether two rows overlap and their outputs differ.
pub fn rows_clash(a: &UdpRow, b: &UdpRow) -> bool
    ensures { result ≡ clash_test a.now b.now }
{
    meet_all(a.ins.as_slice(), b.ins.as_slice()) && meet_state(a.state, b.state) && a.out != b.out
}
