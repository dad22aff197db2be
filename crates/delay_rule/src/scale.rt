ghost use Rattle.std.specs.Prelude.{◌≡◌, ◌*◌, ◌^◌, ◌≤◌, ◌≤ℤ◌, drop, min, negsuc, pos};
ghost use Rattle.delay_rule.specs.Ticks.{AreDigits, delay_in_ticks, half_up as half_up_of, number_after, places as places_of, rounded_amount as rounded_amount_of, ticks_of};

/// What is above every delay, at which counting stops.
const TOO_LONG: u64 = 1 << 31;

/// The number, or the bound where it is above.
fn cap(value: u64) -> u64
    ensures { result ≡ min value (2 ^ 31) }
{
    value.min(TOO_LONG)
}

/// A number with further digits behind its own, up to the bound.
fn with_digits(number: u64, digits: &[u8]) -> u64
    requires bound { number ≤ 2 ^ 31 }
    requires digits { AreDigits digits.now }
    ensures { result ≡ min (number_after number digits.now) (2 ^ 31) }
{
    let mut value = number;
    for digit in digits {
        value = cap(10 * value + u64::from(*digit));
    }
    value
}

/// A number times a power of ten, up to the bound.
fn with_zeros(number: u64, count: usize) -> u64
    requires { number ≤ 2 ^ 31 }
    ensures { result ≡ min (number * 10 ^ count) (2 ^ 31) }
{
    let mut value = number;
    for _zeros in 0..count {
        value = cap(10 * value);
    }
    value
}

/// 1 where the digit at `k` is five or more.
fn half_up(fraction: &[u8], k: usize) -> u64
    ensures { result ≡ half_up_of (drop k fraction.now) }
{
    match fraction.get(k) {
        Some(digit) if *digit >= 5 => 1,
        _ => 0,
    }
}

/// An amount rounded behind `k` digits of its fraction, up to the bound.
fn rounded_amount(whole: &[u8], fraction: &[u8], k: usize) -> u64
    requires whole { AreDigits whole.now }
    requires fraction { AreDigits fraction.now }
    ensures { result ≡ min (rounded_amount_of whole.now fraction.now k) (2 ^ 31) }
{
    let written = fraction.len().min(k);
    let amount = with_digits(with_digits(0, whole), &fraction[..written]);
    cap(with_zeros(amount, k - written) + half_up(fraction, k))
}

/// How many powers of ten lie between two exponents.
fn places(above: i8, below: i8) -> usize
    requires least { negsuc 14 ≤ℤ below }
    requires order { below ≤ℤ above }
    requires greatest { above ≤ℤ pos 2 }
    ensures { result ≡ places_of above below }
{
    (above - below) as usize
}

/// The delay, unless it is past the greatest.
fn delay(ticks: u64) -> Option<u32>
    ensures { result ≡ delay_in_ticks ticks }
{
    if ticks <= 2_147_483_647 {
        Some(ticks as u32)
    } else {
        None
    }
}

/// A delay in ticks: the amount times the unit, rounded to the precision with a half rounded up
/// (IEEE 1364-2005, 19.8). None where it is above 2,147,483,647.
///
/// The amount is given by the digits before and behind its point, each 0 to 9. Unit, precision and
/// tick are exponents of ten of a second.
pub fn ticks(whole: &[u8], fraction: &[u8], unit: i8, precision: i8, tick: i8) -> Option<u32>
    requires whole { AreDigits whole.now }
    requires fraction { AreDigits fraction.now }
    requires least { negsuc 14 ≤ℤ tick }
    requires tick { tick ≤ℤ precision }
    requires precision { precision ≤ℤ unit }
    requires greatest { unit ≤ℤ pos 2 }
    ensures { result ≡ delay_in_ticks (ticks_of whole.now fraction.now unit precision tick) }
{
    let amount = rounded_amount(whole, fraction, places(unit, precision));
    delay(with_zeros(amount, places(precision, tick)))
}
