ghost use Rattle.std.specs.Prelude.{◌≤◌, length};

mod rows_accepted;
mod rows_connections;
mod rows_counts;
mod rows_delays;
mod rows_literals;
mod rows_widths;

use instance_rules::*;
use module_graph::ModuleGraph;
use module_ports::PortTable;
use module_scope::Scope;
use std::alloc::{AllocError, Global};
use std::process::Abort;
use std::test::Fail;
use v_lexer::tokens;
use v_parser::parse;
use v_tree::{File, ImplicitNetType, Location, Module, UdpDecl, UdpPorts};

/// What the last module of a text shows, its text from line 2 on, and the line of each rule's first
/// place, in the order of the fields of `ItemPlaces`, or 0 where the rule isn't broken.
pub struct InstanceRow {
    pub shows: &'static str,
    pub text: &'static str,
    pub lines: [u32; 6],
}

/// Line 1 of each text: the modules and primitives that the rows instantiate.
const LIBRARY: &str =
    "module m(a, b, c); input a; output [1:0] b; inout c; endmodule module none; endmodule module empty(); endmodule module twice(a, a, b); input [0:1] a; output b; endmodule module bare(x, y); input [2:0] y; endmodule module ansi(output [3:0] y, input [7:4] d, e, input f); endmodule primitive inv(q, i); output q; input i; table 0 : 1 ; 1 : 0 ; endtable endprimitive primitive both(output q, input i, j); table 1 1 : 1 ; endtable endprimitive\n";

fn scope_of(alloc: Global, module: &Module) -> Result<Scope, AllocError> {
    Scope::new(alloc, module, Some(ImplicitNetType::Wire))
}

/// The ports of each module.
fn tables_of(alloc: Global, modules: &[Module]) -> Result<Vec<PortTable>, AllocError> {
    let mut tables = Vec::new(alloc);
    for module in modules {
        tables.push(PortTable::new(alloc, module, &scope_of(alloc, module)?)?)?;
    }
    Ok(tables)
}

fn port_count(udp: &UdpDecl) -> usize {
    match &udp.ports {
        UdpPorts::Names(names) => names.len(),
        UdpPorts::Declared { inputs, .. } => inputs.len().saturating_add(1),
    }
}

/// The number of ports of each primitive.
fn counts_of(alloc: Global, udps: &[UdpDecl]) -> Result<Vec<usize>, AllocError> {
    let mut counts = Vec::new(alloc);
    for udp in udps {
        counts.push(port_count(udp))?;
    }
    Ok(counts)
}

/// The places of the last module of a file.
fn last_places(alloc: Global, file: &File) -> Result<Option<ItemPlaces>, AllocError> {
    let graph = ModuleGraph::new(alloc, &file.modules, &file.udps)?;
    let modules = file.modules.as_slice();
    let tables = tables_of(alloc, modules)?;
    let counts = counts_of(alloc, file.udps.as_slice())?;
    match (modules.last(), graph.references().last()) {
        (Some(module), Some(references)) => {
            let scope = scope_of(alloc, module)?;
            let places = instance_places(
                alloc,
                &scope,
                module,
                references.as_slice(),
                tables.as_slice(),
                counts.as_slice(),
            )?;
            Ok(Some(places))
        }
        _ => Ok(None),
    }
}

/// The line of a place, or 0 where there is none.
fn line_of(place: Option<Location>) -> u32 {
    match place {
        Some(place) => place.line,
        None => 0,
    }
}

fn lines_of(places: ItemPlaces) -> [u32; 6] {
    [
        line_of(places.widths),
        line_of(places.counts),
        line_of(places.delays),
        line_of(places.drives),
        line_of(places.connections),
        line_of(places.literals),
    ]
}

fn text_places(alloc: Global, text: &[u8]) -> Result<Option<ItemPlaces>, Fail>
    requires { length text.now ≤ 67108864 }
{
    let list = tokens(alloc, text)?;
    let file = parse(alloc, text, &list)?;
    Ok(last_places(alloc, &file)?)
}

fn assert_row(rt: &impl Abort, alloc: Global, row: &InstanceRow) -> Result<(), Fail> {
    let text = format!(in alloc; "{LIBRARY}{}", row.text)?;
    let bytes = text.as_bytes();
    assert!(rt; bytes.len() <= 67108864, "{}", row.shows);
    let lines = text_places(alloc, bytes)?.map(lines_of);
    assert_eq!(rt; lines, Some(row.lines), "{}", row.shows);
    Ok(())
}

fn assert_rows(rt: &impl Abort, alloc: Global, rows: &[InstanceRow]) -> Result<(), Fail> {
    for row in rows {
        assert_row(rt, alloc, row)?;
    }
    Ok(())
}

#[test]
fn each_rule_has_its_first_place(rt: HostRuntime) -> Result<(), Fail> {
    let alloc = rt.alloc();
    assert_rows(&rt, alloc, rows_accepted::rows())?;
    assert_rows(&rt, alloc, rows_widths::rows())?;
    assert_rows(&rt, alloc, rows_counts::rows())?;
    assert_rows(&rt, alloc, rows_delays::rows())?;
    assert_rows(&rt, alloc, rows_connections::rows())?;
    assert_rows(&rt, alloc, rows_literals::rows())
}
