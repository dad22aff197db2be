use byte_lists::{Bytes, NameList};
use module_graph::*;
use sqlite_items::Items;
use std::alloc::{AllocError, Global};
use std::test::Fail;
use v_tree::{
    Connections, Inst, Instance, Item, Location, Module, ModuleList, ModuleWord, Name, Ports,
    UdpDecl, UdpDeclList, UdpPorts,
};

/// The place of a token. Each line has ten.
fn at(token: u32) -> Location {
    Location {
        line: token / 10,
        token,
    }
}

fn name_at(alloc: Global, text: &str, token: u32) -> Result<Name, AllocError> {
    Ok(Name {
        location: at(token),
        text: Bytes::from_vec(Vec::from_slice(alloc, text.as_bytes())?),
    })
}

/// An item with one instance of a module, whose name stands at a token.
fn instance_at(alloc: Global, text: &str, token: u32) -> Result<Item, AllocError> {
    let mut instances = Items::new(alloc);
    instances.push(Inst {
        name: None,
        paren: at(token),
        connections: Connections::ByOrder(Items::new(alloc)),
    })?;
    Ok(Item::Instances(Instance {
        name: name_at(alloc, text, token)?,
        drive: None,
        delay: None,
        instances,
    }))
}

/// A module with its name at a token, and an item for each name in its body and its token.
fn module_with(
    alloc: Global,
    text: &str,
    token: u32,
    instances: &[(&str, u32)],
) -> Result<Module, AllocError> {
    let mut items = Items::new(alloc);
    for (name, token) in instances {
        items.push(instance_at(alloc, name, *token)?)?;
    }
    Ok(Module {
        location: at(token),
        word: ModuleWord::Module,
        name: name_at(alloc, text, token)?,
        ports: Ports::Absent,
        items,
    })
}

/// A primitive with its name at a token.
fn udp_at(alloc: Global, text: &str, token: u32) -> Result<UdpDecl, AllocError> {
    Ok(UdpDecl {
        location: at(token),
        name: name_at(alloc, text, token)?,
        ports: UdpPorts::Names(Items::new(alloc)),
        items: Items::new(alloc),
        initial: None,
        rows: Items::new(alloc),
    })
}

/// Four modules and two primitives:
///
///     module leaf .. endmodule                      token 2
///     primitive flop .. endprimitive                token 10
///     module top: leaf (token 22), flop (24), gone (26), leaf (28)      token 20
///     module loop: loop (42), half (44)             token 40
///     module half: loop (62)                        token 60
///     primitive leaf .. endprimitive                token 70
fn sample_modules(alloc: Global) -> Result<ModuleList, AllocError> {
    let mut modules = Items::new(alloc);
    modules.push(module_with(alloc, "leaf", 2, &[])?)?;
    modules.push(module_with(
        alloc,
        "top",
        20,
        &[("leaf", 22), ("flop", 24), ("gone", 26), ("leaf", 28)],
    )?)?;
    modules.push(module_with(alloc, "loop", 40, &[("loop", 42), ("half", 44)])?)?;
    modules.push(module_with(alloc, "half", 60, &[("loop", 62)])?)?;
    Ok(modules)
}

fn sample_udps(alloc: Global) -> Result<UdpDeclList, AllocError> {
    let mut udps = Items::new(alloc);
    udps.push(udp_at(alloc, "flop", 10)?)?;
    udps.push(udp_at(alloc, "leaf", 70)?)?;
    Ok(udps)
}

/// The graph of these.
fn sample(alloc: Global) -> Result<ModuleGraph, AllocError> {
    let modules = sample_modules(alloc)?;
    ModuleGraph::new(alloc, &modules, &sample_udps(alloc)?)
}

fn reference(token: u32, master: Master) -> Reference {
    Reference {
        location: at(token),
        master,
    }
}

#[test]
fn names_mean_modules_then_primitives(rt: HostRuntime) -> Result<(), Fail> {
    let graph = sample(rt.alloc())?;
    assert_eq!(rt; graph.references().len(), 4);
    assert_eq!(rt;
        graph.references()[1].as_slice(),
        [
            reference(22, Master::Module(0)),
            reference(24, Master::Udp(0)),
            reference(26, Master::Unknown),
            reference(28, Master::Module(0)),
        ]
        .as_slice()
    );
    assert_eq!(rt;
        graph.references()[2].as_slice(),
        [
            reference(42, Master::Module(2)),
            reference(44, Master::Module(3)),
        ]
        .as_slice()
    );
    Ok(())
}

#[test]
fn the_last_root_or_the_chosen_module_is_the_top(rt: HostRuntime) -> Result<(), Fail> {
    let graph = sample(rt.alloc())?;
    assert_eq!(rt; graph.names().len(), 4);
    assert_eq!(rt; graph.names()[3].as_slice(), b"half".as_slice());
    assert_eq!(rt; graph.top(None), Some(1));
    assert_eq!(rt; graph.top(Some(b"half")), Some(3));
    assert_eq!(rt; graph.top(Some(b"flop")), None);
    Ok(())
}

#[test]
fn of_two_roots_the_last_is_the_top(rt: HostRuntime) -> Result<(), Fail> {
    let mut modules = sample_modules(rt.alloc())?;
    modules.push(module_with(rt.alloc(), "last", 80, &[("gone", 82)])?)?;
    let graph = ModuleGraph::new(rt.alloc(), &modules, &Items::new(rt.alloc()))?;
    assert_eq!(rt; graph.top(None), Some(4));
    Ok(())
}

#[test]
fn the_top_reaches_modules_and_primitives(rt: HostRuntime) -> Result<(), Fail> {
    let graph = sample(rt.alloc())?;
    let reached = graph.reached(rt.alloc(), 1)?;
    assert_eq!(rt; reached.as_slice(), [true, true, false, false].as_slice());
    let udps = graph.reached_udps(rt.alloc(), reached.as_slice(), 2)?;
    assert_eq!(rt; udps.as_slice(), [true, false].as_slice());
    let none = graph.reached_udps(rt.alloc(), &[true, false, true, true], 2)?;
    assert_eq!(rt; none.as_slice(), [false, false].as_slice());
    Ok(())
}

#[test]
fn a_circle_is_no_fault_where_it_is_not_reached(rt: HostRuntime) -> Result<(), Fail> {
    let graph = sample(rt.alloc())?;
    let reached = graph.reached(rt.alloc(), 1)?;
    assert_eq!(rt; graph.unknown_master(reached.as_slice()), Some(at(26)));
    assert_eq!(rt;
        graph.circular_reference(rt.alloc(), reached.as_slice())?,
        None
    );
    Ok(())
}

#[test]
fn an_unknown_name_is_no_fault_where_it_is_not_reached(rt: HostRuntime) -> Result<(), Fail> {
    let graph = sample(rt.alloc())?;
    let reached = graph.reached(rt.alloc(), 3)?;
    assert_eq!(rt; reached.as_slice(), [false, false, true, true].as_slice());
    assert_eq!(rt; graph.unknown_master(reached.as_slice()), None);
    assert_eq!(rt;
        graph.circular_reference(rt.alloc(), reached.as_slice())?,
        Some(at(42))
    );
    Ok(())
}

#[test]
fn the_later_of_two_names_is_repeated(rt: HostRuntime) -> Result<(), Fail> {
    let mut modules = sample_modules(rt.alloc())?;
    let udps = sample_udps(rt.alloc())?;
    let none = Items::new(rt.alloc());
    assert_eq!(rt; repeated_name(rt.alloc(), &modules, &none)?, None);
    assert_eq!(rt; repeated_name(rt.alloc(), &modules, &udps)?, Some(at(70)));
    modules.push(module_with(rt.alloc(), "flop", 5, &[])?)?;
    assert_eq!(rt; repeated_name(rt.alloc(), &modules, &udps)?, Some(at(10)));
    Ok(())
}

/// A graph of a chain of modules without names, each with one reference, to the next, at the token of
/// its own index. The reference of the last is to this master.
fn chain(alloc: Global, count: u32, last: Master) -> Result<ModuleGraph, AllocError> {
    let mut lists = Items::new(alloc);
    let mut names = Vec::new(alloc);
    for index in 0..count {
        names.push(Bytes::from_vec(Vec::new(alloc)))?;
        let master = if index + 1 < count {
            Master::Module(index as usize + 1)
        } else {
            last
        };
        let mut list = Items::new(alloc);
        list.push(reference(index, master))?;
        lists.push(list)?;
    }
    ModuleGraph::from_lists(alloc, NameList::from_vec(names), lists)
}

#[test]
fn a_long_chain_is_walked(rt: HostRuntime) -> Result<(), Fail> {
    let graph = chain(rt.alloc(), 100_000, Master::Unknown)?;
    assert_eq!(rt; graph.top(None), Some(0));
    let reached = graph.reached(rt.alloc(), 0)?;
    assert!(rt; reached.as_slice().iter().all(|found| *found));
    assert_eq!(rt; graph.unknown_master(reached.as_slice()), Some(at(99_999)));
    assert_eq!(rt;
        graph.circular_reference(rt.alloc(), reached.as_slice())?,
        None
    );
    Ok(())
}

#[test]
fn a_circle_is_found_at_its_first_place(rt: HostRuntime) -> Result<(), Fail> {
    let whole = chain(rt.alloc(), 10_000, Master::Module(0))?;
    assert_eq!(rt; whole.top(None), None);
    let reached = whole.reached(rt.alloc(), 5_000)?;
    assert_eq!(rt;
        whole.circular_reference(rt.alloc(), reached.as_slice())?,
        Some(at(0))
    );

    let end = chain(rt.alloc(), 10_000, Master::Module(9_997))?;
    let reached = end.reached(rt.alloc(), 0)?;
    assert_eq!(rt;
        end.circular_reference(rt.alloc(), reached.as_slice())?,
        Some(at(9_997))
    );
    Ok(())
}

#[test]
fn of_two_circles_the_smaller_token_is_the_place(rt: HostRuntime) -> Result<(), Fail> {
    let mut list = Items::new(rt.alloc());
    list.push(reference(9, Master::Module(0)))?;
    list.push(reference(4, Master::Module(0)))?;
    let mut lists = Items::new(rt.alloc());
    lists.push(list)?;
    let graph = ModuleGraph::from_lists(
        rt.alloc(),
        NameList::from_vec(Vec::new(rt.alloc())),
        lists,
    )?;
    assert_eq!(rt; graph.circular_reference(rt.alloc(), &[true])?, Some(at(4)));
    Ok(())
}
