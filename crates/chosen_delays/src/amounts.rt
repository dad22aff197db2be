//! Amounts in ticks.
ghost use Rattle.std.specs.Prelude.{◌≡◌, ◌<◌, ◌≤◌, ◌/◌, ◌%◌, ◌&&◌, IsTrue, if◌then◌else◌};
ghost use Rattle.delay_rule.specs.Ticks.{AreDigits, delay_in_ticks, number as number_of, ticks_of};
ghost use Rattle.chosen_delays.specs.Amounts.{amount_ticks, are_digits, ten_digits};

use crate::scale::DelayScale;
use delay_rule::ticks;
use v_lexer::DecimalDigits;
use v_tree::Amount;

/// A digit of a number, counted by the power of ten that it stands for.
fn digit(number: u32, power: u32) -> u8
    requires { 0 < power }
    ensures value { result ≡ number / power % 10 }
    ensures digit { result ≤ 9 }
{
    (number / power % 10) as u8
}

/// The ten decimal digits of a number, zeros on the left among them.
fn ten_digits(number: u32) -> [u8; 10]
    ensures value { result ≡ ten_digits number }
    ensures digits { AreDigits result }
    ensures same { number_of result ≡ number }
{
    [
        digit(number, 1_000_000_000),
        digit(number, 100_000_000),
        digit(number, 10_000_000),
        digit(number, 1_000_000),
        digit(number, 100_000),
        digit(number, 10_000),
        digit(number, 1_000),
        digit(number, 100),
        digit(number, 10),
        digit(number, 1),
    ]
}

/// Whether each is from 0 to 9.
fn are_digits(digits: &[u8]) -> bool
    ensures value { result ≡ are_digits digits.now }
    ensures all { IsTrue result → AreDigits digits.now }
{
    digits.iter().all(|digit| *digit <= 9)
}

/// A decimal in ticks, unless it is past the greatest delay.
fn decimal_ticks(scale: DelayScale, whole: &[u8], fraction: &[u8]) -> Option<u32>
    ensures { result
        ≡ (if are_digits whole.now && are_digits fraction.now
        then delay_in_ticks (ticks_of whole.now fraction.now scale.unit scale.precision scale.tick)
        else None) }
{
    if are_digits(whole) && are_digits(fraction) {
        ticks(whole, fraction, scale.unit, scale.precision, scale.tick)
    } else {
        None
    }
}

/// An amount in ticks, unless it is past the greatest delay.
pub fn amount_ticks(scale: DelayScale, amount: &Amount) -> Option<u32>
    ensures { result ≡ amount_ticks scale.unit scale.precision scale.tick amount.now }
{
    match amount {
        Amount::Number(number) => ticks(
            &ten_digits(*number),
            &[],
            scale.unit,
            scale.precision,
            scale.tick,
        ),
        Amount::Decimal(decimal) => {
            decimal_ticks(scale, decimal.whole.as_slice(), decimal.fraction.as_slice())
        }
    }
}
