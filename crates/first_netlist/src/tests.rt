use super::*;
use crate::elaborate::meaning;
use crate::form::declarations_in;
use crate::names::flat_name;
use byte_lists::Bytes;
use sqlite_items::Items;
use std::alloc::{AllocError, Global};
use std::test::Fail;
use v_lexer::ReservedWords;
use v_tree::{
    Direction, Expr, GateItem, GateKind, Item, Location, LogicGate, Module, ModuleWord, Name, Pick,
    PlacedNameList, PortDecl, Ports, Terms,
};

const LOCATION: Location = Location { line: 1, token: 0 };

fn name_of(alloc: Global, text: &str) -> Result<Name, AllocError> {
    let text = Bytes::from_vec(text.as_bytes().to_vec(alloc)?);
    Ok(Name {
        location: LOCATION,
        text,
    })
}

fn names_of(alloc: Global, texts: &[&str]) -> Result<PlacedNameList, AllocError> {
    let mut names = Items::new(alloc);
    for text in texts {
        names.push(name_of(alloc, text)?)?;
    }
    Ok(names)
}

fn ports_of(alloc: Global, direction: Direction, texts: &[&str]) -> Result<Item, AllocError> {
    Ok(Item::Ports(PortDecl {
        location: LOCATION,
        direction,
        net_type: None,
        range: None,
        names: names_of(alloc, texts)?,
    }))
}

/// A nand gate without a name, with these terminals.
fn nand_of(alloc: Global, texts: &[&str]) -> Result<Item, AllocError> {
    let mut terminals = Items::new(alloc);
    for text in texts {
        let name = name_of(alloc, text)?;
        terminals.push(Expr::Pick(Pick { name, select: None }))?;
    }
    let mut gates = Items::new(alloc);
    gates.push(Terms {
        name: None,
        paren: LOCATION,
        terminals,
    })?;
    Ok(Item::Gates(GateItem {
        location: LOCATION,
        kind: GateKind::Logic(LogicGate::Nand, None, None),
        gates,
    }))
}

/// `module latch(q, qn, s, \r+ ); output q, qn; input s, \r+ ; nand (q, s, qn); nand (qn, \r+ , q);
/// endmodule`
fn latch(alloc: Global) -> Result<Module, AllocError> {
    let mut items = Items::new(alloc);
    items.push(ports_of(alloc, Direction::Output, &["q", "qn"])?)?;
    items.push(ports_of(alloc, Direction::Input, &["s", "r+"])?)?;
    items.push(nand_of(alloc, &["q", "s", "qn"])?)?;
    items.push(nand_of(alloc, &["qn", "r+", "q"])?)?;
    Ok(Module {
        location: LOCATION,
        word: ModuleWord::Module,
        name: name_of(alloc, "latch")?,
        ports: Ports::Names(names_of(alloc, &["q", "qn", "s", "r+"])?),
        items,
    })
}

// A file can't be made here, since only a parser has the proof that it asks for: the two steps of
// `netlist_of` stand in its place.
#[test]
fn the_latch(rt: HostRuntime) -> Result<(), Fail> {
    let module = latch(rt.alloc())?;
    let words = ReservedWords::new(rt.alloc())?;
    let declared = declarations_in(rt.alloc(), &words, &[module], &[], &[])?;
    let netlist = meaning(rt.alloc(), &declared)?;
    let mut names = Vec::new(rt.alloc());
    for name in netlist.names.as_slice() {
        names.push(name.as_slice())?;
    }
    assert_eq!(rt;
        names.as_slice(),
        [
            b"q".as_slice(),
            b"qn".as_slice(),
            b"s".as_slice(),
            b"\\r+ ".as_slice()
        ]
        .as_slice()
    );
    assert_eq!(rt; netlist.inputs.as_slice(), [2, 3].as_slice());
    assert_eq!(rt; netlist.outputs.as_slice(), [0, 1].as_slice());
    let mut gates = Vec::new(rt.alloc());
    for gate in netlist.gates.as_slice() {
        gates.push((gate.output, gate.inputs.as_slice()))?;
    }
    assert_eq!(rt;
        gates.as_slice(),
        [(0, [2, 1].as_slice()), (1, [3, 0].as_slice())].as_slice()
    );
    Ok(())
}

// A plain name as it is, and another with its `\` and one space (IEEE 1364-2005, 3.7.1).
const FLAT: [(&str, &str); 8] = [
    ("q", "q"),
    ("_a$9", "_a$9"),
    ("wires", "wires"),
    ("a+b", "\\a+b "),
    ("9a", "\\9a "),
    ("$a", "\\$a "),
    ("wire", "\\wire "),
    ("", "\\ "),
];

#[test]
fn flat_names(rt: HostRuntime) -> Result<(), Fail> {
    let words = ReservedWords::new(rt.alloc())?;
    for (text, flat) in FLAT {
        let name = flat_name(rt.alloc(), &words, text.as_bytes())?;
        assert_eq!(rt; name.as_slice(), flat.as_bytes(), "at {text}");
    }
    Ok(())
}
