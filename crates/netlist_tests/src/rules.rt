mod counts;
mod delays;
mod drives;
mod gates;
mod instances;
mod pairs_a;
mod pairs_b;
mod primitives;
mod widths;

use crate::rows::{BrokenLine, NetlistRow, choice, file_of};
use netlist_rules::Rules;
use std::alloc::Global;
use std::process::Abort;
use std::test::Fail;

/// The rule that is answered for a row's netlist, where one is broken.
fn broken_line(alloc: Global, row: &NetlistRow) -> Result<Option<BrokenLine>, Fail> {
    let file = file_of(alloc, row.text.as_bytes())?;
    let answer = Rules::new(alloc, &file, choice(row))?;
    match answer.broken_rule() {
        Some(broken) => Ok(Some(BrokenLine {
            rule: broken.rule.number(),
            line: broken.line,
        })),
        None => Ok(None),
    }
}

fn assert_rows(rt: &impl Abort, alloc: Global, rows: &[NetlistRow]) -> Result<(), Fail> {
    for row in rows {
        assert_eq!(rt; broken_line(alloc, row)?, row.broken, "{}", row.shows);
    }
    Ok(())
}

#[test]
fn the_first_broken_rule(rt: HostRuntime) -> Result<(), Fail> {
    let alloc = rt.alloc();
    assert_rows(&rt, alloc, gates::rows())?;
    assert_rows(&rt, alloc, counts::rows())?;
    assert_rows(&rt, alloc, delays::rows())?;
    assert_rows(&rt, alloc, drives::rows())?;
    assert_rows(&rt, alloc, widths::rows())?;
    assert_rows(&rt, alloc, instances::rows())?;
    assert_rows(&rt, alloc, primitives::rows())?;
    assert_rows(&rt, alloc, pairs_a::rows())?;
    assert_rows(&rt, alloc, pairs_b::rows())
}
