use crate::ListOf;
use std::test::Fail;

#[test]
fn thousands_of_elements_are_copied_in_their_order(rt: HostRuntime) -> Result<(), Fail> {
    let list = ListOf::from_vec((0..5_000u32).collect(rt.alloc())?);
    let copy = list.copied(rt.alloc())?.into_vec();
    assert_eq!(rt; copy.len(), 5_000);
    assert!(rt;
        copy.iter()
            .enumerate()
            .all(|(place, number)| *number as usize == place)
    );
    Ok(())
}
