ghost use Rattle.std.specs.Prelude.{◌≡◌, ◌<◌, length};

use crate::{Entry, Spread};
use std::mem;
use std::process::Abort;
use std::test::Fail;

const CELLS: u32 = 16;

const FAULTS: u32 = 8;

/// The same map as a table of all cells and faults.
type Table = [[Option<u64>; 8]; 16];

/// Sets an entry, and tries again where there was no memory for it.
fn put(rt: &impl Abort, spread: &mut Spread<u64>, cell: u32, fault: u32, value: u64) -> Option<u64>
    requires { cell < length spread.old }
    ensures { length spread.new ≡ length spread.old }
{
    let count = spread.count();
    match spread.set(cell, fault, value) {
        Ok(old) => old,
        Err(back) => {
            assert_eq!(rt; back, value);
            assert_eq!(rt; spread.count(), count);
            assert_eq!(rt; spread.get(cell, fault), None);
            spread.set(cell, fault, back).expect(rt, "there is memory")
        }
    }
}

#[test]
fn entries_come_and_go(rt: HostRuntime) -> Result<(), Fail> {
    let mut spread = Spread::new(rt.alloc(), 5)?;
    assert_eq!(rt; put(&rt, &mut spread, 4, 1, 10), None);
    assert_eq!(rt; put(&rt, &mut spread, 4, 0, 11), None);
    assert_eq!(rt; put(&rt, &mut spread, 2, 0, 12), None);
    assert_eq!(rt; put(&rt, &mut spread, 2, u32::MAX, 13), None);
    assert_eq!(rt; put(&rt, &mut spread, 4, 1, 14), Some(10));
    assert_eq!(rt; spread.count(), 4);
    let both = [
        Entry {
            fault: 0,
            value: 11,
        },
        Entry {
            fault: 1,
            value: 14,
        },
    ];
    assert_eq!(rt; spread.at_cell(4), both.as_slice());
    assert_eq!(rt; spread.get(2, u32::MAX).copied(), Some(13));
    spread.drop_fault(0);
    let one = [Entry {
        fault: 1,
        value: 14,
    }];
    assert_eq!(rt; spread.at_cell(4), one.as_slice());
    assert_eq!(rt; spread.get(2, 0).copied(), None);
    assert_eq!(rt; spread.clear(2, u32::MAX), Some(13));
    assert_eq!(rt; spread.clear(2, u32::MAX), None);
    assert_eq!(rt; spread.count(), 1);
    Ok(())
}

/// The next number of a sequence without order.
fn draw(number: u64) -> u64 {
    number
        .wrapping_mul(6_364_136_223_846_793_005)
        .wrapping_add(1_442_695_040_888_963_407)
}

/// Makes one change in both maps, which answer the same.
fn change_both(rt: &impl Abort, spread: &mut Spread<u64>, table: &mut Table, number: u64)
    requires { length spread.old ≡ 16 }
    ensures { length spread.new ≡ 16 }
{
    let cell = (number >> 40) as u32 % CELLS;
    let fault = (number >> 50) as u32 % FAULTS;
    let kept = &mut table[cell as usize][fault as usize];
    match number >> 60 {
        0..=8 => {
            let old = mem::replace(kept, Some(number));
            assert_eq!(rt; spread.set(cell, fault, number), Ok(old));
        }
        9..=14 => assert_eq!(rt; spread.clear(cell, fault), mem::replace(kept, None)),
        _ => {
            spread.drop_fault(fault);
            for row in table.iter_mut() {
                row[fault as usize] = None;
            }
        }
    }
}

/// Compares both maps whole.
fn compare(rt: &impl Abort, spread: &Spread<u64>, table: &Table)
    requires { length spread.now ≡ 16 }
{
    let mut count = 0u32;
    for cell in 0..CELLS {
        let mut entries = spread.at_cell(cell).iter();
        for fault in 0..FAULTS {
            if let Some(value) = table[cell as usize][fault as usize] {
                assert_eq!(rt; entries.next(), Some(&Entry { fault, value }));
                count = count.saturating_add(1);
            }
        }
        assert_eq!(rt; entries.next(), None);
    }
    assert_eq!(rt; spread.count(), u64::from(count));
}

#[test]
fn thousands_of_changes_agree_with_a_table(rt: HostRuntime) -> Result<(), Fail> {
    let mut spread = Spread::new(rt.alloc(), CELLS)?;
    let mut table = [[None; 8]; 16];
    let mut number = 1;
    for step in 0..4000u32 {
        number = draw(number);
        change_both(&rt, &mut spread, &mut table, number);
        if step % 64 == 0 {
            compare(&rt, &spread, &table);
        }
    }
    compare(&rt, &spread, &table);
    Ok(())
}

#[test]
fn holds_many_entries(rt: HostRuntime) -> Result<(), Fail> {
    let mut spread = Spread::new(rt.alloc(), 100_000)?;
    for cell in 0..100_000u32 {
        assert_eq!(rt; spread.set(cell, cell % 256, cell), Ok(None));
    }
    assert_eq!(rt; spread.count(), 100_000);
    for cell in 0..100_000u32 {
        let fault = cell % 256;
        assert_eq!(rt;
            spread.at_cell(cell),
            [Entry { fault, value: cell }].as_slice()
        );
    }
    for fault in 1..256 {
        spread.drop_fault(fault);
    }
    assert_eq!(rt; spread.count(), 391);
    Ok(())
}
