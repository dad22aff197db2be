use crate::groups_of;
use std::test::Fail;

#[test]
fn pairs_join_nets_over_any_number_of_steps(rt: HostRuntime) -> Result<(), Fail> {
    let least = groups_of(rt.alloc(), 8, &[(6, 4), (1, 5), (4, 1), (3, 3), (7, 2)])?;
    assert_eq!(rt; least.as_slice(), [0, 1, 2, 3, 1, 1, 1, 2].as_slice());
    Ok(())
}

#[test]
fn a_long_chain_is_one_group(rt: HostRuntime) -> Result<(), Fail> {
    let pairs: Vec<(u32, u32)> = (0..100_000).rev().map(|n| (n, n + 1)).collect(rt.alloc())?;
    assert!(rt;
        pairs
            .iter()
            .all(|pair| pair.0 < 100_002 && pair.1 < 100_002)
    );
    let least = groups_of(rt.alloc(), 100_002, &pairs)?;
    let joined = least.iter().filter(|net| **net == 0).count();
    assert_eq!(rt; joined, 100_001);
    assert_eq!(rt; least.last().copied(), Some(100_001));
    Ok(())
}
