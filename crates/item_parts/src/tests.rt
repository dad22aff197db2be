mod pulls;

use super::*;
use pulls::{PullRow, pulls};
use std::process::Abort;
use std::test::Fail;
use v_tree::{DriveStrength, Level, Location, PullLevels, RangeBounds, Select, Strength};

/// A place in a text of one line.
const PAREN: Location = Location { line: 1, token: 7 };

/// A range with its width.
fn range(left: u32, right: u32) -> Option<RangeBounds> {
    Some(RangeBounds { left, right })
}

#[test]
fn a_range_has_all_from_one_bound_to_the_other(rt: HostRuntime) -> Result<(), Fail> {
    assert_eq!(rt; range_width(None), 1);
    assert_eq!(rt; range_width(range(7, 0)), 8);
    assert_eq!(rt; range_width(range(0, 7)), 8);
    assert_eq!(rt; range_width(range(5, 5)), 1);
    assert_eq!(rt; range_width(range(3, 12)), 10);
    assert_eq!(rt; range_width(range(4294967295, 0)), 4294967296);
    assert_eq!(rt; range_width(range(0, 4294967295)), 4294967296);
    Ok(())
}

/// The width of a select.
fn width_of(left: u32, right: Option<u32>) -> u64 {
    select_width(Select { left, right })
}

#[test]
fn a_select_has_one_bit_or_a_part(rt: HostRuntime) -> Result<(), Fail> {
    assert_eq!(rt; width_of(9, None), 1);
    assert_eq!(rt; width_of(9, Some(9)), 1);
    assert_eq!(rt; width_of(9, Some(6)), 4);
    assert_eq!(rt; width_of(6, Some(9)), 4);
    Ok(())
}

/// A level of 0.
fn zero(strength: Strength) -> Level {
    Level {
        strength,
        of_one: false,
    }
}

/// A level of 1.
fn one(strength: Strength) -> Level {
    Level {
        strength,
        of_one: true,
    }
}

/// Whether two levels are a drive.
fn are_drive(first: Level, second: Level) -> bool {
    is_drive(DriveStrength {
        location: PAREN,
        first,
        second,
    })
}

#[test]
fn a_drive_has_a_level_of_each_value(rt: HostRuntime) -> Result<(), Fail> {
    assert!(rt; are_drive(zero(Strength::Strong), one(Strength::Pull)));
    assert!(rt; are_drive(one(Strength::Weak), zero(Strength::Supply)));
    assert!(rt; are_drive(zero(Strength::Highz), one(Strength::Strong)));
    assert!(rt; are_drive(zero(Strength::Strong), one(Strength::Highz)));
    assert!(rt; are_drive(one(Strength::Highz), zero(Strength::Weak)));
    assert!(rt; !are_drive(zero(Strength::Highz), one(Strength::Highz)));
    assert!(rt; !are_drive(one(Strength::Highz), zero(Strength::Highz)));
    assert!(rt; !are_drive(zero(Strength::Strong), zero(Strength::Strong)));
    assert!(rt; !are_drive(one(Strength::Strong), one(Strength::Weak)));
    Ok(())
}

fn assert_pull(rt: &impl Abort, row: &PullRow) -> Result<(), Fail> {
    let levels = PullLevels {
        location: PAREN,
        first: row.first,
        second: row.second,
    };
    let place = if row.is_right { None } else { Some(PAREN) };
    assert_eq!(rt; pull_place(row.gate, Some(levels)), place, "{}", row.shows);
    assert_eq!(rt; pull_place(row.gate, None), None, "{}", row.shows);
    Ok(())
}

#[test]
fn a_pull_gate_uses_the_level_of_its_value(rt: HostRuntime) -> Result<(), Fail> {
    for row in pulls() {
        assert_pull(&rt, row)?;
    }
    Ok(())
}
