ghost use Rattle.std.specs.Prelude.{◌≤◌, length};

mod rows_drives;
mod rows_kinds;
mod rows_literals;
mod rows_widths;

use gate_rules::*;
use module_scope::Scope;
use std::alloc::Global;
use std::process::Abort;
use std::test::Fail;
use v_lexer::tokens;
use v_parser::parse;
use v_tree::{File, ImplicitNetType, Location};

/// What a module shows, its text, and for each rule the line of its first place, 0 where it isn't
/// broken.
pub struct PlaceRow {
    pub shows: &'static str,
    pub text: &'static str,
    pub widths: u32,
    pub counts: u32,
    pub delays: u32,
    pub drives: u32,
    pub literals: u32,
}

/// The line of a place, or 0 where there is none.
fn line_of(place: Option<Location>) -> u32 {
    match place {
        Some(place) => place.line,
        None => 0,
    }
}

/// The lines of the first places in the first module of a file.
fn lines_in(alloc: Global, file: &File) -> Result<[u32; 5], Fail> {
    match file.modules.get(0) {
        Some(module) => {
            let scope = Scope::new(alloc, module, Some(ImplicitNetType::Wire))?;
            let places = gate_places(&scope, module);
            Ok([
                line_of(places.widths),
                line_of(places.counts),
                line_of(places.delays),
                line_of(places.drives),
                line_of(places.literals),
            ])
        }
        None => Ok([0, 0, 0, 0, 0]),
    }
}

/// The lines of the first places in the first module of a text.
fn lines_of(alloc: Global, text: &[u8]) -> Result<[u32; 5], Fail>
    requires { length text.now ≤ 67108864 }
{
    let list = tokens(alloc, text)?;
    let file = parse(alloc, text, &list)?;
    lines_in(alloc, &file)
}

fn assert_row(rt: &impl Abort, alloc: Global, row: &PlaceRow) -> Result<(), Fail> {
    let text = row.text.as_bytes();
    assert!(rt; text.len() <= 67108864, "{}", row.shows);
    let lines = lines_of(alloc, text)?;
    let wanted = [row.widths, row.counts, row.delays, row.drives, row.literals];
    assert_eq!(rt; lines.as_slice(), wanted.as_slice(), "{}", row.shows);
    Ok(())
}

fn assert_rows(rt: &impl Abort, alloc: Global, rows: &[PlaceRow]) -> Result<(), Fail> {
    for row in rows {
        assert_row(rt, alloc, row)?;
    }
    Ok(())
}

#[test]
fn the_first_place_of_each_rule(rt: HostRuntime) -> Result<(), Fail> {
    let alloc = rt.alloc();
    assert_rows(&rt, alloc, rows_kinds::rows())?;
    assert_rows(&rt, alloc, rows_widths::rows())?;
    assert_rows(&rt, alloc, rows_drives::rows())?;
    assert_rows(&rt, alloc, rows_literals::rows())
}
