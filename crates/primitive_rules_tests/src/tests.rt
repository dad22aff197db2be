ghost use Rattle.std.specs.Prelude.{◌≤◌, length};

mod rows_arguments;
mod rows_headers;
mod rows_states;
mod rows_tables;
mod rows_values;

use level_range::Logic;
use primitive_rules::*;
use std::alloc::Global;
use std::process::Abort;
use std::test::Fail;
use v_lexer::tokens;
use v_parser::parse;
use v_tree::{File, Location};

/// What primitives show, their text, for each whether it is reached, and the lines of the first places
/// of the rules.
pub struct PrimitiveRow {
    pub shows: &'static str,
    pub text: &'static str,
    pub reached: &'static [bool],
    pub tables: Option<u32>,
    pub headers: Option<u32>,
}

/// What a primitive shows, its text, its arguments but for the rows, and whether it is made of them.
pub struct ArgumentsRow {
    pub shows: &'static str,
    pub text: &'static str,
    pub inputs: usize,
    pub sequential: bool,
    pub start: Logic,
    pub is_made: bool,
}

/// The tree of a text.
fn file_of(alloc: Global, text: &[u8]) -> Result<File, Fail>
    requires { length text.now ≤ 67108864 }
{
    let list = tokens(alloc, text)?;
    Ok(parse(alloc, text, &list)?)
}

/// The line of a place that may be there.
fn line_of(place: Option<Location>) -> Option<u32> {
    match place {
        Some(place) => Some(place.line),
        None => None,
    }
}

fn assert_row(rt: &impl Abort, alloc: Global, row: &PrimitiveRow) -> Result<(), Fail> {
    let text = row.text.as_bytes();
    assert!(rt; text.len() <= 67108864, "{}", row.shows);
    let file = file_of(alloc, text)?;
    let places = PrimitivePlaces::new(alloc, row.reached, file.udps.as_slice())?;
    assert_eq!(rt; line_of(places.tables), row.tables, "{}", row.shows);
    assert_eq!(rt; line_of(places.headers), row.headers, "{}", row.shows);
    Ok(())
}

fn assert_rows(rt: &impl Abort, alloc: Global, rows: &[PrimitiveRow]) -> Result<(), Fail> {
    for row in rows {
        assert_row(rt, alloc, row)?;
    }
    Ok(())
}

#[test]
fn the_first_places(rt: HostRuntime) -> Result<(), Fail> {
    let alloc = rt.alloc();
    assert_rows(&rt, alloc, rows_headers::rows())?;
    assert_rows(&rt, alloc, rows_states::rows())?;
    assert_rows(&rt, alloc, rows_values::rows())?;
    assert_rows(&rt, alloc, rows_tables::rows())
}

fn assert_arguments(rt: &impl Abort, alloc: Global, row: &ArgumentsRow) -> Result<(), Fail> {
    let text = row.text.as_bytes();
    assert!(rt; text.len() <= 67108864, "{}", row.shows);
    let file = file_of(alloc, text)?;
    let [udp] = file.udps.as_slice() else {
        return Err(Fail::new("not one primitive"));
    };
    let arguments = arguments_of(alloc, udp)?;
    assert_eq!(rt; arguments.inputs, row.inputs, "{}", row.shows);
    assert_eq!(rt; arguments.sequential, row.sequential, "{}", row.shows);
    assert_eq!(rt; arguments.start, row.start, "{}", row.shows);
    assert_eq!(rt;
        arguments.rows.as_slice().len(),
        udp.rows.len(),
        "{}",
        row.shows
    );
    let made = udp_of(alloc, udp);
    assert_eq!(rt; made.is_ok(), row.is_made, "{}", row.shows);
    Ok(())
}

#[test]
fn the_arguments_of_declarations(rt: HostRuntime) -> Result<(), Fail> {
    for row in rows_arguments::rows() {
        assert_arguments(&rt, rt.alloc(), row)?;
    }
    Ok(())
}
