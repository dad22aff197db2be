ghost use Rattle.std.specs.Prelude.{◌≡◌, ◌<◌, ◌^◌};
ghost use Rattle.delay_rule.specs.Delay.{delay_of};

use crate::delays::Delays;
use level_range::Logic;

/// The delay of a change to a value (IEEE 1364-2005, 7.14): to 1 the first, to 0 the second, to z
/// the third or with two delays the least, to x the least of those given. One delay serves all,
/// and none is 0.
///
/// For a switch that is to be on, off or unknown the values are 1, 0 and x.
pub fn pick(delays: &Delays, to: Logic) -> u32
    ensures value { result ≡ delay_of delays.now to }
    ensures short { result < 2 ^ 31 }
{
    let [first, second, third] = delays.d;
    match (delays.count, to) {
        (0, _) => 0,
        (1, _) | (_, Logic::One) => first,
        (_, Logic::Zero) => second,
        (2, _) => first.min(second),
        (_, Logic::Z) => third,
        (_, Logic::X) => first.min(second).min(third),
    }
}
