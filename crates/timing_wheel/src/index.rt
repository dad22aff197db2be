//! Slots found by key. A key that is no longer in use stays until the table is full.
ghost use Rattle.std.specs.Prelude.{◌≡◌, ◌+◌, ◌<◌, ◌≤◌, ◌^◌, length, slice_index, nat_eq, IfSome, IfNone, Some};
ghost use Rattle.std.specs.HashMap.{get, spare};
ghost use Rattle.timing_wheel.specs.Times.{idle};
ghost use Rattle.timing_wheel.specs.Index.{IsIndexed, NoneHas, Stores, room_of};

use crate::least_tree::IDLE;
use crate::schedule::Schedule;
use std::collections::HashMap;

/// The slot in use that has a key.
pub(crate) fn slot_of(
    index: &HashMap<u32, u32>,
    keys: &[u32],
    schedule: &Schedule,
    key: u32,
) -> Option<u32>
    requires size { length keys.now ≡ length schedule.now }
    requires indexed { IsIndexed index.now keys.now schedule.now }
    ensures within { IfSome result (λ slot. slot < length keys.now) }
    ensures key { IfSome result (λ slot. slice_index keys.now slot ≡ key) }
    ensures used { IfSome result (λ slot. slice_index schedule.now slot < idle) }
    ensures none { IfNone result (NoneHas keys.now schedule.now key) }
{
    let slot = *index.get(&key)?;
    if (slot as usize) < keys.len() && keys[slot as usize] == key && schedule.time(slot) != IDLE {
        Some(slot)
    } else {
        None
    }
}

/// Makes a slot to be found by a key that no slot in use has.
pub(crate) fn remember(
    index: &mut HashMap<u32, u32>,
    keys: &[u32],
    schedule: &Schedule,
    key: u32,
    slot: u32,
)
    requires size { length keys.now ≡ length schedule.now }
    requires small { length keys.now < 2 ^ 32 }
    requires slot { slot < length keys.now }
    requires indexed { IsIndexed index.old keys.now schedule.now }
    requires fresh { NoneHas keys.now schedule.now key }
    requires room { length keys.now + length keys.now ≤ room_of index.old }
    ensures indexed { IsIndexed index.new keys.now schedule.now }
    ensures here { get nat_eq index.new key ≡ Some slot }
    ensures room { length keys.now + length keys.now ≤ room_of index.new }
{
    if index.len() == index.capacity() {
        rebuild(index, keys, schedule);
    }
    store(index, key, slot);
}

/// Leaves only the keys of slots in use.
fn rebuild(index: &mut HashMap<u32, u32>, keys: &[u32], schedule: &Schedule)
    requires size { length keys.now ≡ length schedule.now }
    requires small { length keys.now < 2 ^ 32 }
    requires some { 0 < length keys.now }
    requires indexed { IsIndexed index.old keys.now schedule.now }
    requires room { length keys.now + length keys.now ≤ room_of index.old }
    ensures indexed { IsIndexed index.new keys.now schedule.now }
    ensures room { length keys.now + length keys.now ≤ room_of index.new }
    ensures spare { 0 < spare index.new }
{
    index.clear();
    for slot in 0..keys.len() as u32 {
        if schedule.time(slot) != IDLE {
            store(index, keys[slot as usize], slot);
        }
    }
}

/// Makes a slot to be found by a key.
fn store(index: &mut HashMap<u32, u32>, key: u32, slot: u32)
    requires { 0 < spare index.old }
    ensures stored { Stores index.old index.new key slot }
    ensures room { room_of index.old ≤ room_of index.new }
    ensures spare { spare index.old ≤ spare index.new + 1 }
{
    if let Some(found) = index.get_mut(&key) {
        *found = slot;
        return;
    }
    let _ = index.insert(key, slot);
}
