ghost use Rattle.std.specs.Prelude.{IsTrue};
ghost use Rattle.delay_rule.specs.Ticks.{AreDigits};

use crate::{Delays, Pending, pick, retarget, retarget_switch, ticks};
use level_range::{Conduct, Logic, Range};
use std::process::Abort;
use std::test::Fail;

const NONE: Delays = Delays {
    count: 0,
    d: [0, 0, 0],
};

const ONE: Delays = Delays {
    count: 1,
    d: [7, 0, 0],
};

const TWO: Delays = Delays {
    count: 2,
    d: [5, 3, 0],
};

const THREE: Delays = Delays {
    count: 3,
    d: [5, 4, 9],
};

/// The delays of changes to 0, 1, x and z.
fn picks(rt: &impl Abort, delays: &Delays, zero: u32, one: u32, x: u32, z: u32) {
    assert_eq!(rt; pick(delays, Logic::Zero), zero);
    assert_eq!(rt; pick(delays, Logic::One), one);
    assert_eq!(rt; pick(delays, Logic::X), x);
    assert_eq!(rt; pick(delays, Logic::Z), z);
}

#[test]
fn picks_by_the_target(rt: HostRuntime) {
    picks(&rt, &NONE, 0, 0, 0, 0);
    picks(&rt, &ONE, 7, 7, 7, 7);
    picks(&rt, &TWO, 3, 5, 3, 3);
    picks(&rt, &THREE, 4, 5, 4, 9);
}

/// What is pending for `or #(5,3)`: a rise, a fall before it comes, a rise again, a second input.
#[test]
fn keeps_and_removes_a_rise(rt: HostRuntime) {
    let low = Range::new(-6, -6);
    let high = Range::new(6, 6);
    let rise = retarget(low, None, high, 10, &TWO);
    assert_eq!(rt;
        rise,
        Some(Pending {
            value: high,
            at: 15
        })
    );
    let fall = retarget(low, rise, low, 12, &TWO);
    assert_eq!(rt; fall, None);
    let again = retarget(low, fall, high, 14, &TWO);
    assert_eq!(rt;
        again,
        Some(Pending {
            value: high,
            at: 19
        })
    );
    assert_eq!(rt; retarget(low, again, high, 16, &TWO), again);
}

#[test]
fn turns_a_switch(rt: HostRuntime) {
    let turn = |to: Conduct| retarget_switch(Conduct::Unknown, None, to, 10, &TWO);
    assert_eq!(rt;
        turn(Conduct::On),
        Some(Pending {
            value: Conduct::On,
            at: 15
        })
    );
    assert_eq!(rt;
        turn(Conduct::Off),
        Some(Pending {
            value: Conduct::Off,
            at: 13
        })
    );
    assert_eq!(rt; turn(Conduct::Unknown), None);
}

/// A written delay, its time scale as exponents of ten of a second, and what it is in ticks.
struct Scaled {
    whole: &'static [u8],
    fraction: &'static [u8],
    unit: i8,
    precision: i8,
    tick: i8,
    ticks: Option<u32>,
}

const SCALED: [Scaled; 9] = [
    // 0.25 under 10 ns / 1 ns, in ticks of 1 ns and of 100 ps
    Scaled {
        whole: &[0],
        fraction: &[2, 5],
        unit: -8,
        precision: -9,
        tick: -9,
        ticks: Some(3),
    },
    Scaled {
        whole: &[0],
        fraction: &[2, 5],
        unit: -8,
        precision: -9,
        tick: -10,
        ticks: Some(30),
    },
    // 0.12 and 0.1 under 1 ns / 10 ps
    Scaled {
        whole: &[0],
        fraction: &[1, 2],
        unit: -9,
        precision: -11,
        tick: -11,
        ticks: Some(12),
    },
    Scaled {
        whole: &[0],
        fraction: &[1],
        unit: -9,
        precision: -11,
        tick: -11,
        ticks: Some(10),
    },
    // just below a half, and a half
    Scaled {
        whole: &[7],
        fraction: &[4, 9, 9],
        unit: 0,
        precision: 0,
        tick: 0,
        ticks: Some(7),
    },
    Scaled {
        whole: &[7],
        fraction: &[5],
        unit: 0,
        precision: 0,
        tick: 0,
        ticks: Some(8),
    },
    // the greatest delay, and one more
    Scaled {
        whole: &[2, 1, 4, 7, 4, 8, 3, 6, 4, 7],
        fraction: &[],
        unit: 0,
        precision: 0,
        tick: 0,
        ticks: Some(2_147_483_647),
    },
    Scaled {
        whole: &[2, 1, 4, 7, 4, 8, 3, 6, 4, 7],
        fraction: &[5],
        unit: 0,
        precision: 0,
        tick: 0,
        ticks: None,
    },
    // one second in femtoseconds
    Scaled {
        whole: &[1],
        fraction: &[],
        unit: 0,
        precision: -15,
        tick: -15,
        ticks: None,
    },
];

fn are_digits(digits: &[u8]) -> bool
    ensures { IsTrue result → AreDigits digits.now }
{
    digits.iter().all(|digit| *digit <= 9)
}

#[test]
fn counts_the_ticks_of_a_written_delay(rt: HostRuntime) {
    for row in &SCALED {
        assert!(rt; are_digits(row.whole) && are_digits(row.fraction));
        assert!(rt; -15 <= row.tick && row.tick <= row.precision);
        assert!(rt; row.precision <= row.unit && row.unit <= 2);
        assert_eq!(rt;
            ticks(row.whole, row.fraction, row.unit, row.precision, row.tick),
            row.ticks
        );
    }
}

#[test]
fn rounds_a_thousand_digits(rt: HostRuntime) -> Result<(), Fail> {
    let nines: Vec<u8> = vec![in rt.alloc(); 9; 1_000]?;
    assert!(rt; are_digits(&nines));
    assert_eq!(rt; ticks(&[], &nines, 2, -5, -5), Some(10_000_000));
    assert_eq!(rt; ticks(&nines, &nines, 2, -5, -5), None);
    Ok(())
}
