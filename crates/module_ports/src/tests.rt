use super::*;
use byte_lists::Bytes;
use module_scope::Scope;
use sqlite_items::Items;
use std::alloc::{AllocError, Global};
use std::test::Fail;
use v_tree::{
    AnsiEntry, AnsiPort, Direction, ImplicitNetType, Item, Location, Module, ModuleWord, Name,
    PortDecl, Ports, RangeBounds,
};

const NOWHERE: Location = Location { line: 1, token: 0 };

fn name(alloc: Global, text: &str) -> Result<Name, AllocError> {
    Ok(Name {
        location: NOWHERE,
        text: Bytes::from_vec(text.as_bytes().to_vec(alloc)?),
    })
}

fn names(alloc: Global, texts: &[&str]) -> Result<Items<Name>, AllocError> {
    let mut list = Items::new(alloc);
    for text in texts {
        list.push(name(alloc, text)?)?;
    }
    Ok(list)
}

/// `direction [left:0] texts;`
fn declaration(
    alloc: Global,
    direction: Direction,
    left: u32,
    texts: &[&str],
) -> Result<Item, AllocError> {
    Ok(Item::Ports(PortDecl {
        location: NOWHERE,
        direction,
        net_type: None,
        range: Some(RangeBounds { left, right: 0 }),
        names: names(alloc, texts)?,
    }))
}

/// `direction [left:0] text` in a header.
fn ansi(
    alloc: Global,
    direction: Direction,
    left: u32,
    text: &str,
) -> Result<AnsiPort, AllocError> {
    Ok(AnsiPort {
        location: NOWHERE,
        direction,
        net_type: None,
        range: Some(RangeBounds { left, right: 0 }),
        name: name(alloc, text)?,
    })
}

fn table_of(alloc: Global, ports: Ports, items: Items<Item>) -> Result<PortTable, AllocError> {
    let module = Module {
        location: NOWHERE,
        word: ModuleWord::Module,
        name: name(alloc, "m")?,
        ports,
        items,
    };
    let scope = Scope::new(alloc, &module, Some(ImplicitNetType::Wire))?;
    PortTable::new(alloc, &module, &scope)
}

/// The direction of a port and its left bound.
fn port_at(table: &PortTable, index: usize) -> Option<(Direction, u32)> {
    let net = table.net_at(index)?;
    Some((net.direction?, net.range?.left))
}

#[test]
fn names_of_a_header(rt: HostRuntime) -> Result<(), Fail> {
    let alloc = rt.alloc();
    let header = Ports::Names(names(alloc, &["b", "a", "b", "c", "d"])?);
    let mut items = Items::new(alloc);
    items.push(declaration(alloc, Direction::Output, 3, &["a", "e"])?)?;
    items.push(declaration(alloc, Direction::Inout, 7, &["d", "b"])?)?;
    let table = table_of(alloc, header, items)?;
    assert_eq!(rt; table.len(), 5);
    assert_eq!(rt; port_at(&table, 0), Some((Direction::Inout, 7)));
    assert_eq!(rt; port_at(&table, 1), Some((Direction::Output, 3)));
    assert_eq!(rt; port_at(&table, 2), Some((Direction::Inout, 7)));
    assert_eq!(rt; table.net_at(3), None);
    assert_eq!(rt; port_at(&table, 4), Some((Direction::Inout, 7)));
    assert_eq!(rt; table.net_at(5), None);
    assert_eq!(rt; table.index_of(b"b"), Some(0));
    assert_eq!(rt; table.index_of(b"c"), Some(3));
    assert_eq!(rt; table.index_of(b"d"), Some(4));
    assert_eq!(rt; table.index_of(b"e"), None);
    Ok(())
}

#[test]
fn declarations_in_a_header(rt: HostRuntime) -> Result<(), Fail> {
    let alloc = rt.alloc();
    let mut others = Items::new(alloc);
    others.push(AnsiEntry::Name(name(alloc, "q")?))?;
    others.push(AnsiEntry::Port(ansi(alloc, Direction::Output, 2, "y")?))?;
    others.push(AnsiEntry::Name(name(alloc, "z")?))?;
    let header = Ports::Ansi(ansi(alloc, Direction::Input, 5, "p")?, others);
    let table = table_of(alloc, header, Items::new(alloc))?;
    assert_eq!(rt; table.len(), 4);
    assert_eq!(rt; port_at(&table, 0), Some((Direction::Input, 5)));
    assert_eq!(rt; port_at(&table, 1), Some((Direction::Input, 5)));
    assert_eq!(rt; port_at(&table, 2), Some((Direction::Output, 2)));
    assert_eq!(rt; port_at(&table, 3), Some((Direction::Output, 2)));
    assert_eq!(rt; table.index_of(b"z"), Some(3));
    assert_eq!(rt; table.index_of(b"x"), None);
    Ok(())
}
