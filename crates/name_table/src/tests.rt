use super::*;
use std::test::Fail;

#[test]
fn names_are_found_at_their_places(rt: HostRuntime) -> Result<(), Fail> {
    let mut table = NameTable::new(rt.alloc());
    assert!(rt; table.is_empty());
    let steps = [
        ("a", true),
        ("ab", true),
        ("a", false),
        ("", true),
        ("ab", false),
    ];
    for (name, added) in steps {
        assert_eq!(rt; table.add(name.as_bytes())?, added, "at {name}");
    }
    assert_eq!(rt; table.len(), 3);
    assert_eq!(rt; table.find(b"ab"), Some(1));
    assert_eq!(rt; table.find(b""), Some(2));
    assert_eq!(rt; table.find(b"b"), None);
    assert!(rt; table.contains(b"a"));
    let names = table.into_names(rt.alloc())?;
    let mut texts = Vec::new(rt.alloc());
    for name in names.as_slice() {
        texts.push(name.as_slice())?;
    }
    assert_eq!(rt;
        texts.as_slice(),
        [b"a".as_slice(), b"ab".as_slice(), b"".as_slice()].as_slice()
    );
    Ok(())
}
