//! The finite map from keys to times.
ghost use Rattle.std.specs.Prelude.{◌≡◌, ◌↔◌, ◌+◌, ◌-◌, ◌^◌, ◌<◌, ◌≤◌, length, take, drop, IsNone, IfSome, IfNone, IfOk, OnOk, OnErr};
ghost use Rattle.std.specs.Prelude.{vec_len, vec_capacity, IsPermutation, IsSorted};
ghost use Rattle.std.specs.Ordering.{nat_cmp};
ghost use Rattle.std.specs.FinMap.{empty, insert, remove, len};
ghost use Rattle.timing_wheel.specs.Entries.{Appends};
ghost use Rattle.timing_wheel.specs.Wheel.{IsLeastTime, IsLeastDue, HasRoomFor, NoneDue, AppendsDue, spare_after_put, spare_after_cancel};

use crate::index::{remember, slot_of};
use crate::key_list::KeyList;
use crate::least_tree::IDLE;
use crate::schedule::Schedule;
use std::alloc::{AllocError, Global};
use std::collections::HashMap;
use std::marker::Model;

/// The most keys that a wheel may have room for.
const MOST: usize = 4_000_000_000;

/// Times by key, with the least time at hand. A time is a number of ticks, any below 2^64 - 1.
///
/// Contracts see the finite map from keys to times, and `spare`: how many new keys fit without more
/// memory.
#[derive(Drop)]
pub struct Wheel {
    keys: Vec<u32>,
    index: HashMap<u32, u32>,
    schedule: Schedule,
    spare: u32,
}

impl Model for Wheel {
    ghost use Rattle.timing_wheel.specs.Wheel.{Pending, pending_code};
    ghost use Rattle.timing_wheel.specs.Entries.{pending, IsWheel};

    ghost Value = { Pending };

    ghost coded = { pending_code };

    ghost view = { λ w. pending w.keys.items w.schedule w.spare };

    ghost invariant = { λ w. IsWheel w.keys.items w.schedule w.index w.spare };
}

impl Wheel {
    /// A wheel without keys. It takes no memory.
    pub fn new(alloc: Global) -> Wheel
        ensures times { result.times ≡ empty }
        ensures spare { result.spare ≡ 0 }
    {
        Wheel {
            keys: Vec::new(alloc),
            index: HashMap::new(alloc),
            schedule: Schedule::new(alloc),
            spare: 0,
        }
    }

    /// A wheel without keys that has room for so many.
    fn with_slots(alloc: Global, slots: u32) -> Result<Wheel, AllocError>
        requires { slots ≤ 4000000000 }
        ensures times { IfOk result (λ wheel. wheel.times ≡ empty) }
        ensures spare { IfOk result (λ wheel. wheel.spare ≡ slots) }
    {
        let schedule = Schedule::with_slots(alloc, slots)?;
        let keys = blank_keys(alloc, slots)?;
        let index = HashMap::with_capacity(alloc, 2 * slots as usize)?;
        Ok(Wheel {
            keys,
            index,
            schedule,
            spare: slots,
        })
    }

    /// Makes room for so many new keys. The keys and their times stay.
    ///
    /// Where memory is refused, or the wheel would have room for more than 4,000,000,000 keys, all is
    /// as before.
    pub fn reserve(&mut self, n: u32) -> Result<(), AllocError>
        ensures times { self.new.times ≡ self.old.times }
        ensures spare { self.old.spare ≤ self.new.spare }
        ensures room { OnOk result (n ≤ self.new.spare) }
        ensures err { OnErr result (self.new ≡ self.old) }
    {
        if n > self.spare {
            *self = self.larger(n)?;
        }
        Ok(())
    }

    /// A wheel with the same keys and times that has room for so many new keys.
    fn larger(&self, n: u32) -> Result<Wheel, AllocError>
        ensures times { IfOk result (λ wheel. wheel.times ≡ self.now.times) }
        ensures room { IfOk result (λ wheel. n ≤ wheel.spare) }
    {
        let slots = (self.used() + n as usize).max(2 * self.keys.len());
        if slots > MOST {
            return Err(AllocError);
        }
        let alloc = *self.keys.allocator();
        let mut copy = Wheel::with_slots(alloc, slots as u32)?;
        for slot in 0..self.keys.len() as u32 {
            let time = self.schedule.time(slot);
            if time != IDLE {
                copy.put(self.keys[slot as usize], time);
            }
        }
        Ok(copy)
    }

    /// Gives a key a time below 2^64 - 1, in place of the one that it has.
    pub fn put(&mut self, key: u32, at: u64)
        requires time { at < 2 ^ 64 - 1 }
        requires room { HasRoomFor self.old key }
        ensures times { self.new.times ≡ insert self.old.times key at }
        ensures spare { self.new.spare ≡ spare_after_put self.old key }
    {
        match slot_of(&self.index, self.keys.as_slice(), &self.schedule, key) {
            Some(known) => {
                self.schedule.stop(known);
                self.schedule.start(known, at);
            }
            None => {
                if let Some(slot) = self.schedule.idle_slot() {
                    remember(
                        &mut self.index,
                        self.keys.as_slice(),
                        &self.schedule,
                        key,
                        slot,
                    );
                    self.keys[slot as usize] = key;
                    self.schedule.start(slot, at);
                    self.spare -= 1;
                }
            }
        }
    }

    /// Takes a key out, where it is there.
    pub fn cancel(&mut self, key: u32)
        ensures times { self.new.times ≡ remove self.old.times key }
        ensures spare { self.new.spare ≡ spare_after_cancel self.old key }
    {
        if let Some(slot) = slot_of(&self.index, self.keys.as_slice(), &self.schedule, key) {
            self.schedule.stop(slot);
            self.spare += 1;
        }
    }

    /// The least time of a key.
    pub fn next_time(&self) -> Option<u64>
        ensures none { IsNone result ↔ (self.now.times ≡ empty) }
        ensures least { IfSome result (IsLeastTime self.now.times) }
    {
        let least = self.schedule.least();
        if least == IDLE { None } else { Some(least) }
    }

    /// Takes out one key of the least time, where that is at most t.
    pub fn take_one(&mut self, t: u64) -> Option<u32>
        ensures taken { IfSome result (IsLeastDue self.old.times t) }
        ensures times { IfSome result (λ key. self.new.times ≡ remove self.old.times key) }
        ensures spare { IfSome result (λ key. self.new.spare ≡ self.old.spare + 1) }
        ensures none { IfNone result (NoneDue self.old.times t) }
        ensures unchanged { IfNone result (self.new ≡ self.old) }
    {
        let slot = self.schedule.least_slot()?;
        if self.schedule.time(slot) > t {
            return None;
        }
        self.schedule.stop(slot);
        self.spare += 1;
        Some(self.keys[slot as usize])
    }

    /// Takes out all keys with a time of at most t, and appends them to a list in rising order.
    ///
    /// Where memory is refused, the wheel and the list are as before.
    pub fn take_due(&mut self, t: u64, into: &mut KeyList) -> Result<(), AllocError>
        ensures taken { OnOk result (AppendsDue self.old self.new t into.old into.new) }
        ensures err { OnErr result (self.new ≡ self.old) }
        ensures err_into { OnErr result (into.new ≡ into.old) }
    {
        let used = self.used();
        into.keys.reserve(used)?;
        let start = into.keys.len();
        self.collect(t, &mut into.keys);
        sort_from(&mut into.keys, start);
        Ok(())
    }

    /// How many keys there are at most.
    fn used(&self) -> usize
        ensures most { len self.now.times ≤ result }
        ensures small { result < 2 ^ 32 }
    {
        self.keys.len() - self.spare as usize
    }

    /// Takes out all keys with a time of at most t, and appends them to a vector that has room.
    fn collect(&mut self, t: u64, keys: &mut Vec<u32>)
        requires { vec_len keys.old + len self.old.times ≤ vec_capacity keys.old }
        ensures taken { Appends self.old self.new t keys.old.items keys.new.items }
        ensures none { NoneDue self.new.times t }
    {
        while let Some(key) = self.take_one(t) {
            keys.push_reserved(key);
        }
    }
}

/// Sorts what stands from a place on.
fn sort_from(keys: &mut Vec<u32>, start: usize)
    requires { start ≤ vec_len keys.old }
    ensures head { take start keys.new.items ≡ take start keys.old.items }
    ensures permutation { IsPermutation (drop start keys.old.items) (drop start keys.new.items) }
    ensures sorted { IsSorted nat_cmp (drop start keys.new.items) }
{
    keys.as_mut_slice()[start..].sort_unstable();
}

/// The keys of so many slots that aren't in use.
fn blank_keys(alloc: Global, slots: u32) -> Result<Vec<u32>, AllocError>
    ensures { IfOk result (λ v. length v.items ≡ slots) }
{
    vec![in alloc; 0; slots as usize]
}
