ghost use Rattle.std.specs.Prelude.{◌≤◌, ◌^◌};

use super::*;
use std::alloc::{AllocError, Global};
use std::test::Fail;

#[test]
fn a_key_put_twice_has_its_last_time(rt: HostRuntime) -> Result<(), Fail> {
    let mut wheel = Wheel::new(rt.alloc());
    let mut due = KeyList::new(rt.alloc());
    assert_eq!(rt; wheel.next_time(), None);
    wheel.reserve(2)?;
    wheel.put(7, 5);
    wheel.put(3, 5);
    wheel.put(7, 9);
    assert_eq!(rt; wheel.next_time(), Some(5));
    wheel.take_due(5, &mut due)?;
    assert_eq!(rt; due.as_slice(), [3].as_slice());
    assert_eq!(rt; wheel.next_time(), Some(9));
    assert_eq!(rt; wheel.take_one(8), None);
    assert_eq!(rt; wheel.take_one(9), Some(7));
    assert_eq!(rt; wheel.next_time(), None);
    Ok(())
}

/// Keys with their times, in no order.
#[derive(Drop)]
struct Pairs {
    pairs: Vec<(u32, u64)>,
}

impl Pairs {
    fn put(&mut self, key: u32, at: u64) -> Result<(), AllocError> {
        self.cancel(key);
        self.pairs.push((key, at))?;
        Ok(())
    }

    fn cancel(&mut self, key: u32) {
        self.pairs.retain(|pair| pair.0 != key);
    }

    fn least(&self) -> Option<u64> {
        self.pairs.iter().map(|pair| pair.1).min()
    }

    fn is_at(&self, key: u32, at: u64) -> bool {
        self.pairs.iter().any(|pair| *pair == (key, at))
    }

    fn take_due(&mut self, alloc: Global, t: u64) -> Result<Vec<u32>, AllocError> {
        let due = self.pairs.iter().filter(|pair| pair.1 <= t);
        let mut keys: Vec<u32> = due.map(|pair| pair.0).collect(alloc)?;
        keys.sort_unstable();
        self.pairs.retain(|pair| pair.1 > t);
        Ok(keys)
    }
}

/// A number that looks random.
fn mix(number: u64) -> u64 {
    let product = number.wrapping_add(1).wrapping_mul(0x9e37_79b9_7f4a_7c15);
    (product ^ (product >> 31)).wrapping_mul(0xbf58_476d_1ce4_e5b9) >> 20
}

/// Delays on both sides of the number of buckets, and far ones.
fn delay(choice: u64) -> u64
    ensures { result ≤ 2 ^ 40 }
{
    match choice % 8 {
        0 => 0,
        1 => 1,
        2 => 7,
        3 => 511,
        4 => 512,
        5 => 513,
        6 => 1_000_000,
        _ => 0x100_0000_0000,
    }
}

#[test]
fn a_wheel_is_the_list_of_its_keys_and_times(rt: HostRuntime) -> Result<(), Fail> {
    let mut wheel = Wheel::new(rt.alloc());
    let mut model = Pairs {
        pairs: Vec::new(rt.alloc()),
    };
    let mut due = KeyList::new(rt.alloc());
    for step in 0..6000 {
        let number = mix(step);
        let now = 2 * step;
        let key = (number % 97) as u32 * 44_000_000;
        match number / 128 % 8 {
            0..=4 => {
                let at = now + delay(number / 1024);
                wheel.reserve(1)?;
                wheel.put(key, at);
                model.put(key, at)?;
            }
            5 => {
                wheel.cancel(key);
                model.cancel(key);
            }
            6 => {
                due.clear();
                wheel.take_due(now, &mut due)?;
                let expected = model.take_due(rt.alloc(), now)?;
                assert_eq!(rt; due.as_slice(), expected.as_slice(), "at {step}");
            }
            _ => match wheel.take_one(now + 600) {
                None => assert!(rt; model.least().is_none_or(|t| t > now + 600), "at {step}"),
                Some(taken) => {
                    let least = model.least().ok_or("a key of none")?;
                    assert!(rt; least <= now + 600, "at {step}");
                    assert!(rt; model.is_at(taken, least), "at {step}");
                    model.cancel(taken);
                }
            },
        }
        assert_eq!(rt; wheel.next_time(), model.least(), "at {step}");
    }
    Ok(())
}

/// A time for each key: a quarter near, the others over many ticks.
fn time_of(key: u32) -> u64
    ensures { result ≤ 2 ^ 44 }
{
    let number = mix(u64::from(key));
    if number % 4 == 0 {
        number / 4 % 300
    } else {
        number / 4 % 0x100_0000_0000
    }
}

#[test]
fn a_hundred_thousand_keys_come_in_order_of_their_times(rt: HostRuntime) -> Result<(), Fail> {
    let count = 100_000u32;
    let mut wheel = Wheel::new(rt.alloc());
    wheel.reserve(count)?;
    for place in 0..count {
        let key = place.wrapping_mul(0x9e37_79b1);
        wheel.reserve(1)?;
        wheel.put(key, time_of(key));
    }
    let mut last = 0;
    for place in 0..count {
        let next = wheel.next_time().ok_or("too few keys")?;
        assert!(rt; last <= next, "at {place}");
        let key = wheel.take_one(next).ok_or("a time without a key")?;
        assert_eq!(rt; time_of(key), next, "at {place}");
        last = next;
    }
    assert_eq!(rt; wheel.next_time(), None);
    Ok(())
}
