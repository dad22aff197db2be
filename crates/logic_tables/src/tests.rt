ghost use Rattle.std.specs.Prelude.{◌≤◌};

use crate::{EnableKind, EnableOut, FoldKind, enable, enable_span, fold_gate};
use level_range::{Logic, percent_v};
use std::process::Abort;

fn shows(rt: &impl Abort, out: EnableOut, s0: u8, s1: u8, text: &str)
    requires zero_level { s0 ≤ 7 }
    requires one_level { s1 ≤ 7 }
{
    assert_eq!(rt;
        percent_v(enable_span(out, s0, s1)).as_slice(),
        text.as_bytes()
    );
}

#[test]
fn drives_by_data_and_control(rt: HostRuntime) {
    shows(
        &rt,
        enable(EnableKind::Bufif1, Logic::One, Logic::X),
        6,
        6,
        "StH",
    );
    shows(
        &rt,
        enable(EnableKind::Bufif1, Logic::One, Logic::One),
        5,
        0,
        "HiZ",
    );
    shows(
        &rt,
        enable(EnableKind::Bufif1, Logic::X, Logic::One),
        5,
        0,
        "PuL",
    );
    shows(
        &rt,
        enable(EnableKind::Notif0, Logic::One, Logic::Zero),
        6,
        6,
        "St0",
    );
}

#[test]
fn folds_all_inputs(rt: HostRuntime) {
    let zero_and_z = [Logic::One, Logic::Z, Logic::Zero];
    let one_and_z = [Logic::One, Logic::Z, Logic::One];
    let three_ones = [Logic::One, Logic::One, Logic::One];
    assert_eq!(rt; fold_gate(FoldKind::And, &zero_and_z), Logic::Zero);
    assert_eq!(rt; fold_gate(FoldKind::And, &one_and_z), Logic::X);
    assert_eq!(rt; fold_gate(FoldKind::Nor, &one_and_z), Logic::Zero);
    assert_eq!(rt; fold_gate(FoldKind::Xor, &three_ones), Logic::One);
    assert_eq!(rt; fold_gate(FoldKind::Xnor, &one_and_z), Logic::X);
    assert_eq!(rt; fold_gate(FoldKind::Not, &[Logic::Z]), Logic::X);
}
