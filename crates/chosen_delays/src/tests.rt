use super::*;
use byte_lists::Bytes;
use delay_rule::Delays;
use sqlite_items::Items;
use std::alloc::Global;
use std::process::Abort;
use std::test::Fail;
use v_lexer::DecimalDigits;
use v_tree::{Amount, Delay, DelaySpec, DelayValue, Location};

/// Unit, precision and tick in a file without time scales.
const PLAIN: DelayScale = DelayScale {
    unit: 0,
    precision: 0,
    tick: 0,
};

/// 10 ns / 1 ns in a file whose tick is 100 ps.
const TEN_NANOSECONDS: DelayScale = DelayScale {
    unit: -8,
    precision: -9,
    tick: -10,
};

/// 1 s / 1 fs.
const SECOND: DelayScale = DelayScale {
    unit: 0,
    precision: -15,
    tick: -15,
};

/// A delay behind a `#`.
fn item_delay(delay: Delay) -> Option<DelaySpec> {
    Some(DelaySpec {
        location: Location { line: 1, token: 2 },
        delay,
    })
}

/// `#number`.
fn number_delay(number: u32) -> Option<DelaySpec> {
    item_delay(Delay::Amount(Amount::Number(number)))
}

/// `#whole.fraction`.
fn decimal_delay(alloc: Global, whole: &[u8], fraction: &[u8]) -> Result<Option<DelaySpec>, Fail> {
    let decimal = DecimalDigits {
        whole: Bytes::from_vec(whole.to_vec(alloc)?),
        fraction: Bytes::from_vec(fraction.to_vec(alloc)?),
    };
    Ok(item_delay(Delay::Amount(Amount::Decimal(decimal))))
}

/// `#(number, ..)`.
fn numbers_delay(alloc: Global, numbers: &[u32]) -> Result<Option<DelaySpec>, Fail> {
    let mut values = Items::new(alloc);
    for number in numbers {
        values.push(DelayValue::One(Amount::Number(*number)))?;
    }
    Ok(item_delay(Delay::Values(values)))
}

/// `#(1:2:4)`.
fn triple_delay(alloc: Global) -> Result<Option<DelaySpec>, Fail> {
    let mut values = Items::new(alloc);
    values.push(DelayValue::Three(Amount::Number(1), Amount::Number(2), Amount::Number(4)))?;
    Ok(item_delay(Delay::Values(values)))
}

/// Asserts how many delays there are, and which.
fn assert_delays(
    rt: &impl Abort,
    choice: Mtm,
    scale: DelayScale,
    spec: &Option<DelaySpec>,
    count: u8,
    d: [u32; 3],
) {
    match delays_of(choice, scale, spec) {
        Some(delays) => {
            assert_eq!(rt; delays.count, count);
            assert_eq!(rt; delays.d, d);
        }
        None => assert!(rt; false),
    }
}

#[test]
fn no_delay_and_a_delay_of_0(rt: HostRuntime) {
    assert_delays(&rt, Mtm::Typ, PLAIN, &None, 0, [0, 0, 0]);
    assert_delays(&rt, Mtm::Typ, PLAIN, &number_delay(0), 1, [0, 0, 0]);
    assert_delays(&rt, Mtm::Typ, PLAIN, &number_delay(1), 1, [1, 0, 0]);
}

#[test]
fn one_amount_of_three(rt: HostRuntime) -> Result<(), Fail> {
    let spec = triple_delay(rt.alloc())?;
    assert_delays(&rt, Mtm::Min, PLAIN, &spec, 1, [1, 0, 0]);
    assert_delays(&rt, Mtm::Typ, PLAIN, &spec, 1, [2, 0, 0]);
    assert_delays(&rt, Mtm::Max, PLAIN, &spec, 1, [4, 0, 0]);
    Ok(())
}

#[test]
fn two_and_three_delays(rt: HostRuntime) -> Result<(), Fail> {
    let two = numbers_delay(rt.alloc(), &[1, 2])?;
    let three = numbers_delay(rt.alloc(), &[1, 2, 7])?;
    assert_delays(&rt, Mtm::Min, PLAIN, &two, 2, [1, 2, 0]);
    assert_delays(&rt, Mtm::Max, TEN_NANOSECONDS, &three, 3, [100, 200, 700]);
    Ok(())
}

#[test]
fn a_fraction_is_rounded_to_the_precision(rt: HostRuntime) -> Result<(), Fail> {
    let quarter = decimal_delay(rt.alloc(), &[0], &[2, 5])?;
    assert_delays(&rt, Mtm::Typ, TEN_NANOSECONDS, &quarter, 1, [30, 0, 0]);
    assert_delays(&rt, Mtm::Typ, PLAIN, &quarter, 1, [0, 0, 0]);
    Ok(())
}

#[test]
fn a_delay_of_ten_digits(rt: HostRuntime) -> Result<(), Fail> {
    let greatest = number_delay(2147483647);
    assert_delays(&rt, Mtm::Typ, PLAIN, &greatest, 1, [2147483647, 0, 0]);
    assert_delays(
        &rt,
        Mtm::Typ,
        PLAIN,
        &number_delay(1234567890),
        1,
        [1234567890, 0, 0],
    );
    Ok(())
}

#[test]
fn a_delay_past_the_greatest(rt: HostRuntime) -> Result<(), Fail> {
    let late = numbers_delay(rt.alloc(), &[1, 2147483647])?;
    assert!(rt; delays_of(Mtm::Typ, SECOND, &number_delay(1)).is_none());
    assert!(rt; delays_of(Mtm::Typ, PLAIN, &number_delay(2147483648)).is_none());
    assert!(rt; delays_of(Mtm::Typ, TEN_NANOSECONDS, &late).is_none());
    Ok(())
}
