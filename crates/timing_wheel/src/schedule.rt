//! A time for each slot, with the least at hand: near times in buckets, others in a tree.
ghost use Rattle.std.specs.Prelude.{◌≡◌, ◌+◌, ◌<◌, ◌^◌, [], length, replicate, slice_set, slice_index, IfOk, IfSome, IfNone};
ghost use Rattle.timing_wheel.specs.Times.{idle, IsLeastOf, AllIdle, NoneIdle, IsFreeFor};

use crate::chains::Chains;
use crate::least_tree::{IDLE, LeastTree};
use std::alloc::{AllocError, Global};
use std::marker::Model;

/// How many buckets of near times there are.
const BUCKETS: u32 = 512;

/// A time for each slot, `IDLE` for one that isn't in use. Contracts see the list of them.
///
/// A slot in use is linked into the bucket of its time where that bucket is free or has the same
/// time, and is a leaf of the far times otherwise. Slots that aren't in use are linked into a list
/// of their own.
#[derive(Drop)]
pub(crate) struct Schedule {
    chains: Chains,
    ticks: LeastTree,
    far: LeastTree,
    times: Vec<u64>,
}

impl Model for Schedule {
    ghost use Rattle.std.specs.Prelude.{List, ℕ};
    ghost use Rattle.timing_wheel.specs.Slots.{IsSchedule};

    ghost Value = { List ℕ };

    ghost view = { λ s. s.times.items };

    ghost invariant = { λ s. IsSchedule s.times.items s.chains s.ticks s.far };
}

impl Schedule {
    /// No slots. It takes no memory.
    pub(crate) fn new(alloc: Global) -> Schedule
        ensures { result ≡ [] }
    {
        Schedule {
            chains: Chains::new(alloc),
            ticks: LeastTree::new(alloc),
            far: LeastTree::new(alloc),
            times: Vec::new(alloc),
        }
    }

    /// So many slots that aren't in use.
    pub(crate) fn with_slots(alloc: Global, slots: u32) -> Result<Schedule, AllocError>
        requires { slots + 1024 < 2 ^ 32 }
        ensures { IfOk result (λ schedule. schedule ≡ replicate slots idle) }
    {
        let mut chains = Chains::with_lists(alloc, BUCKETS + 1, slots)?;
        for slot in 0..slots {
            chains.link(slot, BUCKETS);
        }
        let ticks = LeastTree::with_leaves(alloc, BUCKETS)?;
        let far = LeastTree::with_leaves(alloc, slots)?;
        let times = idle_times(alloc, slots)?;
        Ok(Schedule {
            chains,
            ticks,
            far,
            times,
        })
    }

    /// The time of a slot.
    pub(crate) fn time(&self, slot: u32) -> u64
        requires { slot < length self.now }
        ensures { result ≡ slice_index self.now slot }
    {
        self.times[slot as usize]
    }

    /// The least time of a slot, or `IDLE` where none is in use.
    pub(crate) fn least(&self) -> u64
        ensures least { IsLeastOf self.now result }
        ensures none { result ≡ idle → AllIdle self.now }
    {
        self.ticks.least().min(self.far.least())
    }

    /// A slot of the least time.
    pub(crate) fn least_slot(&self) -> Option<u32>
        ensures within { IfSome result (λ slot. slot < length self.now) }
        ensures used { IfSome result (λ slot. slice_index self.now slot < idle) }
        ensures least { IfSome result (λ slot. IsLeastOf self.now (slice_index self.now slot)) }
        ensures none { IfNone result (AllIdle self.now) }
    {
        let near = self.ticks.least();
        let far = self.far.least();
        if near == IDLE && far == IDLE {
            return None;
        }
        if near <= far {
            self.chains.first(self.ticks.least_leaf() as u32)
        } else {
            Some(self.far.least_leaf() as u32)
        }
    }

    /// A slot that isn't in use.
    pub(crate) fn idle_slot(&self) -> Option<u32>
        ensures within { IfSome result (λ slot. slot < length self.now) }
        ensures idle { IfSome result (λ slot. slice_index self.now slot ≡ idle) }
        ensures none { IfNone result (NoneIdle self.now) }
    {
        if self.times.is_empty() {
            return None;
        }
        self.chains.first(self.chains.lists() - 1)
    }

    /// Gives a slot that isn't in use a time.
    pub(crate) fn start(&mut self, slot: u32, time: u64)
        requires slot { slot < length self.old }
        requires idle { slice_index self.old slot ≡ idle }
        requires time { time < idle }
        ensures { self.new ≡ slice_set self.old slot time }
    {
        let bucket = near_bucket(&self.ticks, self.least(), time);
        self.chains.unlink(slot);
        match bucket {
            Some(bucket) => {
                self.ticks.set(bucket as usize, time);
                self.chains.link(slot, bucket);
            }
            None => self.far.set(slot as usize, time),
        }
        self.times[slot as usize] = time;
    }

    /// Ends the use of a slot.
    pub(crate) fn stop(&mut self, slot: u32)
        requires slot { slot < length self.old }
        requires used { slice_index self.old slot < idle }
        ensures { self.new ≡ slice_set self.old slot idle }
    {
        let buckets = self.chains.lists() - 1;
        let place = self.chains.place(slot);
        if place < buckets {
            self.chains.unlink(slot);
            match self.chains.first(place) {
                Some(_other) => {}
                None => self.ticks.set(place as usize, IDLE),
            }
        } else {
            self.far.set(slot as usize, IDLE);
        }
        self.chains.link(slot, buckets);
        self.times[slot as usize] = IDLE;
    }
}

/// The bucket for a time that is near the least one, unless another time has it.
fn near_bucket(ticks: &LeastTree, least: u64, time: u64) -> Option<u32>
    requires some { 0 < length ticks.now }
    requires small { length ticks.now < 2 ^ 32 }
    ensures within { IfSome result (λ bucket. bucket < length ticks.now) }
    ensures free { IfSome result (λ bucket. IsFreeFor (slice_index ticks.now bucket) time) }
{
    let buckets = ticks.len() as u64;
    if time >= least.saturating_add(buckets) {
        return None;
    }
    let bucket = time % buckets;
    let tick = ticks.time(bucket as usize);
    if tick == IDLE || tick == time {
        Some(bucket as u32)
    } else {
        None
    }
}

/// The times of so many slots that aren't in use.
fn idle_times(alloc: Global, slots: u32) -> Result<Vec<u64>, AllocError>
    ensures { IfOk result (λ v. v.items ≡ replicate slots idle) }
{
    vec![in alloc; IDLE; slots as usize]
}
