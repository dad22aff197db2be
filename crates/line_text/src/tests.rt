mod rows;

use crate::{decimal, line_count, names_in, next_field, next_line, number};
use rows::{field_rows, line_rows, name_rows, number_rows};
use std::alloc::{AllocError, Global};
use std::test::Fail;

/// The bytes as a text, each with the character of its code.
fn push_bytes(text: &mut String, bytes: &[u8]) -> Result<(), AllocError> {
    for byte in bytes {
        text.push(char::from(*byte))?;
    }
    Ok(())
}

/// The lines that aren't passed over, each as its number, a colon, its bytes and a bar.
fn line_texts(alloc: Global, text: &[u8]) -> Result<String, AllocError> {
    let mut shown = String::new(alloc);
    let mut before = 0;
    let mut rest = text;
    while before < 1_000_000
        && rest.len() < 1_000_000
        && let Some(line) = next_line(before, rest)
    {
        before = line.number;
        rest = line.rest;
        write!(shown, "{before}:")?;
        push_bytes(&mut shown, line.bytes)?;
        shown.push('|')?;
    }
    Ok(shown)
}

#[test]
fn lines_have_their_numbers(rt: HostRuntime) -> Result<(), Fail> {
    for row in line_rows() {
        let shown = line_texts(rt.alloc(), row.text.as_bytes())?;
        assert_eq!(rt; shown.as_str(), row.lines, "at {:?}", row.text);
        assert_eq!(rt;
            line_count(row.text.as_bytes()),
            row.count,
            "at {:?}",
            row.text
        );
    }
    Ok(())
}

/// The fields of a line, each with a bar behind it.
fn field_texts(alloc: Global, line: &[u8]) -> Result<String, AllocError> {
    let mut shown = String::new(alloc);
    let mut rest = line;
    while let Some((field, behind)) = next_field(rest) {
        push_bytes(&mut shown, field)?;
        shown.push('|')?;
        rest = behind;
    }
    Ok(shown)
}

#[test]
fn fields_stand_between_blanks(rt: HostRuntime) -> Result<(), Fail> {
    for row in field_rows() {
        let shown = field_texts(rt.alloc(), row.line.as_bytes())?;
        assert_eq!(rt; shown.as_str(), row.fields, "at {:?}", row.line);
    }
    Ok(())
}

/// The names in a line, each with a bar behind it.
fn name_texts(alloc: Global, line: &[u8]) -> Result<String, AllocError> {
    let names = names_in(alloc, line)?;
    let mut shown = String::new(alloc);
    for name in names.as_slice() {
        push_bytes(&mut shown, name.as_slice())?;
        shown.push('|')?;
    }
    Ok(shown)
}

#[test]
fn names_have_escaped_components(rt: HostRuntime) -> Result<(), Fail> {
    for row in name_rows() {
        let shown = name_texts(rt.alloc(), row.line.as_bytes())?;
        assert_eq!(rt; shown.as_str(), row.fields, "at {:?}", row.line);
    }
    Ok(())
}

#[test]
fn numbers_have_decimal_digits(rt: HostRuntime) -> Result<(), Fail> {
    for row in number_rows() {
        let field = row.field.as_bytes();
        assert_eq!(rt; decimal(field), row.decimal, "at {:?}", row.field);
        assert_eq!(rt; number(field), row.number, "at {:?}", row.field);
    }
    Ok(())
}
