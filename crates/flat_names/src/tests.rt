use super::*;
use std::test::Fail;
use v_lexer::ReservedWords;

/// Names as they are written, and as their component is spelled.
static COMPONENTS: [(&[u8], &[u8]); 8] = [
    (b"a", b"a"),
    (b"_b$9", b"_b$9"),
    (b"9b", b"\\9b "),
    (b"$a", b"\\$a "),
    (b"wire", b"\\wire "),
    (b"reg", b"\\reg "),
    (b"a.b[0]", b"\\a.b[0] "),
    (b"d+1", b"\\d+1 "),
];

#[test]
fn names_have_a_backslash_where_they_need_one(rt: HostRuntime) -> Result<(), Fail> {
    let words = ReservedWords::new(rt.alloc())?;
    for row in &COMPONENTS {
        let mut text = Vec::new(rt.alloc());
        push_name(&mut text, &words, row.0)?;
        assert_eq!(rt; text.as_slice(), row.1);
    }
    Ok(())
}

#[test]
fn a_flat_name_is_a_path_a_name_and_an_index(rt: HostRuntime) -> Result<(), Fail> {
    let words = ReservedWords::new(rt.alloc())?;
    let mut text = Vec::new(rt.alloc());
    push_instance(&mut text, &words, b"u1")?;
    push_instance(&mut text, &words, b"u[2]")?;
    push_unnamed(&mut text, 4_294_967_295)?;
    push_bit(&mut text, 10)?;
    assert_eq!(rt; text.as_slice(), b"u1.\\u[2] .#4294967295[10]".as_slice());
    Ok(())
}
