ghost use Rattle.std.specs.Prelude.{◌≤◌, length};

mod rows;
mod show;

use module_graph::ModuleGraph;
use module_parts::*;
use module_ports::PortTable;
use module_scope::Scope;
use show::show_parts;
use std::alloc::{AllocError, Global};
use std::process::Abort;
use std::test::Fail;
use v_lexer::tokens;
use v_parser::parse;
use v_tree::{File, ImplicitNetType, Module};

/// What the last module of a text shows, its text, and its parts as `show_parts` writes them.
pub struct PartsRow {
    pub shows: &'static str,
    pub text: &'static str,
    pub parts: &'static str,
}

/// The modules and the primitive that the rows instantiate: modules 0 and 1, and primitive 0.
const LIBRARY: &str =
    "module m(a, b, c); input a; output [1:0] b; inout [0:3] c; endmodule module none; endmodule primitive inv(q, i); output q; input i; table 0 : 1 ; 1 : 0 ; endtable endprimitive\n";

fn scope_of(alloc: Global, module: &Module) -> Result<Scope, AllocError> {
    Scope::new(alloc, module, Some(ImplicitNetType::Wire))
}

/// The ports of each module.
fn tables_of(alloc: Global, modules: &[Module]) -> Result<Vec<PortTable>, AllocError> {
    let mut tables = Vec::new(alloc);
    for module in modules {
        tables.push(PortTable::new(alloc, module, &scope_of(alloc, module)?)?)?;
    }
    Ok(tables)
}

/// The parts of the last module of a file.
fn last_parts(alloc: Global, file: &File) -> Result<Option<PartList>, AllocError> {
    let graph = ModuleGraph::new(alloc, &file.modules, &file.udps)?;
    let modules = file.modules.as_slice();
    let tables = tables_of(alloc, modules)?;
    match (modules.last(), graph.references().last()) {
        (Some(module), Some(references)) => {
            let scope = scope_of(alloc, module)?;
            let references = references.as_slice();
            let parts = module_parts(alloc, &scope, module, references, tables.as_slice())?;
            Ok(Some(parts))
        }
        _ => Ok(None),
    }
}

fn text_parts(alloc: Global, text: &[u8]) -> Result<Option<PartList>, Fail>
    requires { length text.now ≤ 67108864 }
{
    let list = tokens(alloc, text)?;
    let file = parse(alloc, text, &list)?;
    Ok(last_parts(alloc, &file)?)
}

fn assert_row(rt: &impl Abort, alloc: Global, row: &PartsRow) -> Result<(), Fail> {
    let text = format!(in alloc; "{LIBRARY}{}", row.text)?;
    let bytes = text.as_bytes();
    assert!(rt; bytes.len() <= 67108864, "{}", row.shows);
    let parts = text_parts(alloc, bytes)?;
    let mut shown = String::new(alloc);
    if let Some(parts) = &parts {
        show_parts(&mut shown, parts.as_slice())?;
    }
    assert_eq!(rt; shown.as_str(), row.parts, "{}", row.shows);
    Ok(())
}

#[test]
fn each_module_has_its_parts(rt: HostRuntime) -> Result<(), Fail> {
    let alloc = rt.alloc();
    for row in rows::rows() {
        assert_row(&rt, alloc, row)?;
    }
    Ok(())
}
