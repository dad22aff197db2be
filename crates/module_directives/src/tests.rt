use super::*;
use byte_lists::Bytes;
use sqlite_items::Items;
use std::alloc::{AllocError, Global};
use std::test::Fail;
use v_tree::{
    CellDirective, CellWord, DefaultNettype, Directive, ImplicitNetType, Location, Module,
    ModuleWord, Name, Ports, Timescale,
};

/// The place of a token. Each line has ten.
fn at(token: u32) -> Location {
    Location {
        line: token / 10,
        token,
    }
}

fn timescale(token: u32, unit: i8, precision: i8) -> Directive {
    Directive::Timescale(Timescale {
        location: at(token),
        unit,
        precision,
    })
}

fn default_nettype(token: u32, net_type: Option<ImplicitNetType>) -> Directive {
    Directive::DefaultNettype(DefaultNettype {
        location: at(token),
        net_type,
    })
}

/// `` `timescale 1ns/100ps ``, `` `default_nettype none ``, `` `timescale 10ns/1ns ``, `` `resetall ``,
/// `` `timescale 1ps/1ns ``, `` `default_nettype trireg `` and `` `celldefine ``.
fn directives() -> [Directive; 7] {
    [
        timescale(0, -9, -10),
        default_nettype(6, None),
        timescale(20, -8, -9),
        Directive::Resetall(at(40)),
        timescale(60, -12, -9),
        default_nettype(66, Some(ImplicitNetType::Trireg)),
        Directive::Cell(CellDirective {
            location: at(68),
            word: CellWord::Celldefine,
        }),
    ]
}

/// A module without ports and items, whose first token this is.
fn module_at(alloc: Global, token: u32) -> Module {
    Module {
        location: at(token),
        word: ModuleWord::Module,
        name: Name {
            location: at(token),
            text: Bytes::from_vec(Vec::new(alloc)),
        },
        ports: Ports::Absent,
        items: Items::new(alloc),
    }
}

/// Modules at these tokens.
fn modules_at(alloc: Global, tokens: &[u32]) -> Result<Vec<Module>, AllocError> {
    let mut modules = Vec::new(alloc);
    for token in tokens {
        modules.push(module_at(alloc, *token))?;
    }
    Ok(modules)
}

fn settings(unit: i8, precision: i8, implicit_type: Option<ImplicitNetType>) -> Settings {
    Settings {
        unit,
        precision,
        implicit_type,
    }
}

#[test]
fn the_last_directives_before_a_module_hold(rt: HostRuntime) -> Result<(), Fail> {
    let modules = modules_at(rt.alloc(), &[10, 30, 50, 70])?;
    let list = settings_of(rt.alloc(), &modules, &directives())?;
    assert_eq!(rt;
        list.as_slice(),
        [
            settings(-9, -10, None),
            settings(-8, -9, None),
            settings(-10, -10, Some(ImplicitNetType::Wire)),
            settings(-12, -9, Some(ImplicitNetType::Trireg)),
        ]
        .as_slice()
    );
    Ok(())
}

#[test]
fn modules_may_stand_in_any_order(rt: HostRuntime) -> Result<(), Fail> {
    let modules = modules_at(rt.alloc(), &[70, 10])?;
    let list = settings_of(rt.alloc(), &modules, &directives())?;
    assert_eq!(rt;
        list.as_slice(),
        [
            settings(-12, -9, Some(ImplicitNetType::Trireg)),
            settings(-9, -10, None),
        ]
        .as_slice()
    );
    Ok(())
}

#[test]
fn the_finest_precision_is_the_tick(rt: HostRuntime) -> Result<(), Fail> {
    assert_eq!(rt; finest_precision(&directives()), Some(-10));
    assert_eq!(rt; tick_of(&directives()), -10);
    let plain = [default_nettype(3, None), Directive::Resetall(at(5))];
    assert_eq!(rt; finest_precision(&plain), None);
    assert_eq!(rt; tick_of(&plain), 0);
    assert_eq!(rt; tick_of(&[timescale(0, 2, 1), timescale(6, 2, 2)]), 1);
    Ok(())
}

#[test]
fn a_precision_above_its_unit_is_coarse(rt: HostRuntime) -> Result<(), Fail> {
    assert_eq!(rt; coarse_precision(&directives()), Some(at(60)));
    let three = [
        timescale(8, -9, -9),
        timescale(24, -9, 0),
        timescale(16, -12, -9),
        timescale(32, -9, -6),
    ];
    assert_eq!(rt; coarse_precision(&three), Some(at(16)));
    assert_eq!(rt; coarse_precision(&[timescale(0, -9, -12)]), None);
    Ok(())
}
