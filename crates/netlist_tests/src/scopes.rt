mod accepted;
mod circles;
mod implicit;
mod masters;
mod names;
mod pairs;
mod ports;
mod precisions;
mod ranges;
mod repeated;
mod selects;
mod tops;
mod undeclared;

use crate::rows::{BrokenLine, NetlistRow, choice, file_of};
use netlist_scopes::Scopes;
use std::alloc::Global;
use std::process::Abort;
use std::test::Fail;

/// The rule that is answered for a row's netlist, where one is broken.
fn broken_line(alloc: Global, row: &NetlistRow) -> Result<Option<BrokenLine>, Fail> {
    let file = file_of(alloc, row.text.as_bytes())?;
    let answer = Scopes::new(alloc, &file, choice(row))?;
    match answer.broken_rule() {
        Some(broken) => Ok(Some(BrokenLine {
            rule: broken.rule.number(),
            line: broken.line,
        })),
        None => Ok(None),
    }
}

fn assert_rows(rt: &impl Abort, alloc: Global, rows: &[NetlistRow]) -> Result<(), Fail> {
    for row in rows {
        assert_eq!(rt; broken_line(alloc, row)?, row.broken, "{}", row.shows);
    }
    Ok(())
}

#[test]
fn the_first_broken_rule_of_scopes(rt: HostRuntime) -> Result<(), Fail> {
    let alloc = rt.alloc();
    assert_rows(&rt, alloc, names::rows())?;
    assert_rows(&rt, alloc, tops::rows())?;
    assert_rows(&rt, alloc, masters::rows())?;
    assert_rows(&rt, alloc, circles::rows())?;
    assert_rows(&rt, alloc, ports::rows())?;
    assert_rows(&rt, alloc, repeated::rows())?;
    assert_rows(&rt, alloc, undeclared::rows())?;
    assert_rows(&rt, alloc, selects::rows())?;
    assert_rows(&rt, alloc, ranges::rows())?;
    assert_rows(&rt, alloc, precisions::rows())?;
    assert_rows(&rt, alloc, implicit::rows())?;
    assert_rows(&rt, alloc, pairs::rows())?;
    assert_rows(&rt, alloc, accepted::rows())
}
