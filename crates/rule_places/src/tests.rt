use super::*;
use std::test::Fail;

/// The place of a token of a line.
fn at(line: u32, token: u32) -> Location {
    Location { line, token }
}

#[test]
fn the_smaller_token_is_first(rt: HostRuntime) -> Result<(), Fail> {
    assert_eq!(rt; earlier(at(9, 4), at(1, 5)), at(9, 4));
    assert_eq!(rt; earlier(at(1, 5), at(9, 4)), at(9, 4));
    assert_eq!(rt; earlier(at(1, 4), at(2, 4)), at(1, 4));
    Ok(())
}

#[test]
fn a_place_is_before_none(rt: HostRuntime) -> Result<(), Fail> {
    assert_eq!(rt; earliest(None, None), None);
    assert_eq!(rt; earliest(Some(at(3, 7)), None), Some(at(3, 7)));
    assert_eq!(rt; earliest(None, Some(at(3, 7))), Some(at(3, 7)));
    assert_eq!(rt; earliest(Some(at(3, 7)), Some(at(2, 6))), Some(at(2, 6)));
    Ok(())
}

#[test]
fn a_place_precedes_what_is_not_before_it(rt: HostRuntime) -> Result<(), Fail> {
    assert!(rt; precedes(Some(at(9, 4)), at(1, 5)));
    assert!(rt; precedes(Some(at(9, 4)), at(1, 4)));
    assert!(rt; !precedes(Some(at(1, 5)), at(9, 4)));
    assert!(rt; !precedes(None, at(9, 4)));
    Ok(())
}
