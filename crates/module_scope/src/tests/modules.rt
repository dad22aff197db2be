use super::*;
use crate::roles::NetKind;
use sqlite_items::Items;
use v_tree::{
    Amount, AnsiEntry, AnsiPort, AssignItem, CellDirective, CellWord, Charge, Connection,
    Connections, DeclaredNames, Delay, DelaySpec, Direction, Expr, GateItem, GateKind, Inst,
    Instance, Item, LogicGate, Module, ModuleWord, NetDecl, NetType, Pair, Pick, PortDecl, Ports,
    RangeBounds, Select, Target, Terms, TriregDecl, ValuedName, VectorRange,
};

const NOWHERE: Location = Location { line: 1, token: 0 };

fn range(left: u32, right: u32) -> RangeBounds {
    RangeBounds { left, right }
}

fn delay(ticks: u32) -> Option<DelaySpec> {
    Some(DelaySpec {
        location: NOWHERE,
        delay: Delay::Amount(Amount::Number(ticks)),
    })
}

fn pick(alloc: Global, token: u32, text: &str, select: Option<Select>) -> Result<Pick, AllocError> {
    Ok(Pick {
        name: name(alloc, token, text)?,
        select,
    })
}

fn net(alloc: Global, token: u32, text: &str) -> Result<Expr, AllocError> {
    Ok(Expr::Pick(pick(alloc, token, text, None)?))
}

fn names(alloc: Global, token: u32, texts: &[&str]) -> Result<Items<Name>, AllocError> {
    let mut list = Items::new(alloc);
    let mut token = token;
    for text in texts {
        list.push(name(alloc, token, text)?)?;
        token = token.wrapping_add(1);
    }
    Ok(list)
}

/// `(input [3:0] a, b, output tri y)`
fn header(alloc: Global) -> Result<Ports, AllocError> {
    let first = AnsiPort {
        location: NOWHERE,
        direction: Direction::Input,
        net_type: None,
        range: Some(range(3, 0)),
        name: name(alloc, 1, "a")?,
    };
    let mut entries = Items::new(alloc);
    entries.push(AnsiEntry::Name(name(alloc, 2, "b")?))?;
    entries.push(AnsiEntry::Port(AnsiPort {
        location: NOWHERE,
        direction: Direction::Output,
        net_type: Some(NetType::Tri),
        range: None,
        name: name(alloc, 3, "y")?,
    }))?;
    Ok(Ports::Ansi(first, entries))
}

/// `wand [1:0] #3 w, v;`
fn vectors(alloc: Global) -> Result<Item, AllocError> {
    Ok(Item::Nets(NetDecl {
        location: NOWHERE,
        net_type: NetType::Wand,
        drive: None,
        vector_range: Some(VectorRange {
            word: None,
            range: range(1, 0),
        }),
        delay: delay(3),
        declared_names: DeclaredNames::Names(names(alloc, 4, &["w", "v"])?),
    }))
}

/// `tri0 #2 s = a[0];`
fn assigned(alloc: Global) -> Result<Item, AllocError> {
    let select = Some(Select {
        left: 0,
        right: None,
    });
    let mut valued = Items::new(alloc);
    valued.push(ValuedName {
        name: name(alloc, 6, "s")?,
        value: Expr::Pick(pick(alloc, 7, "a", select)?),
    })?;
    Ok(Item::Nets(NetDecl {
        location: NOWHERE,
        net_type: NetType::Tri0,
        drive: None,
        vector_range: None,
        delay: delay(2),
        declared_names: DeclaredNames::Valued(valued),
    }))
}

/// `trireg [charge] [delay] text;`
fn charged(
    alloc: Global,
    token: u32,
    text: &str,
    charge: Option<Charge>,
    delay: Option<DelaySpec>,
) -> Result<Item, AllocError> {
    Ok(Item::Trireg(TriregDecl {
        location: NOWHERE,
        charge,
        vector_range: None,
        delay,
        names: names(alloc, token, &[text])?,
    }))
}

/// `assign {y, t} = {v, c};`
fn assignment(alloc: Global) -> Result<Item, AllocError> {
    let mut targets = Items::new(alloc);
    targets.push(Target::Pick(pick(alloc, 10, "y", None)?))?;
    targets.push(Target::Pick(pick(alloc, 11, "t", None)?))?;
    let mut values = Items::new(alloc);
    values.push(net(alloc, 12, "v")?)?;
    values.push(net(alloc, 13, "c")?)?;
    let mut pairs = Items::new(alloc);
    pairs.push(Pair {
        target: Target::Concat(NOWHERE, targets),
        value: Expr::Concat(NOWHERE, values),
    })?;
    Ok(Item::Assign(AssignItem {
        location: NOWHERE,
        drive: None,
        delay: None,
        pairs,
    }))
}

/// `buf g (o, t);`
fn gate(alloc: Global) -> Result<Item, AllocError> {
    let mut gates = Items::new(alloc);
    let label = Some(name(alloc, 14, "g")?);
    let mut terminals = Items::new(alloc);
    terminals.push(net(alloc, 15, "o")?)?;
    terminals.push(net(alloc, 16, "t")?)?;
    gates.push(Terms {
        name: label,
        paren: NOWHERE,
        terminals,
    })?;
    Ok(Item::Gates(GateItem {
        location: NOWHERE,
        kind: GateKind::Logic(LogicGate::Buf, None, None),
        gates,
    }))
}

/// `sub u (p, , b), x (.a(q), .b());`
fn instances(alloc: Global) -> Result<Item, AllocError> {
    let mut list = Items::new(alloc);
    let first = Some(name(alloc, 17, "u")?);
    let mut ordered = Items::new(alloc);
    ordered.push(Some(net(alloc, 18, "p")?))?;
    ordered.push(None)?;
    ordered.push(Some(net(alloc, 19, "b")?))?;
    list.push(Inst {
        name: first,
        paren: NOWHERE,
        connections: Connections::ByOrder(ordered),
    })?;
    let second = Some(name(alloc, 20, "x")?);
    let mut named = Items::new(alloc);
    named.push(Connection {
        location: NOWHERE,
        port: name(alloc, 0, "a")?,
        value: Some(net(alloc, 21, "q")?),
    })?;
    named.push(Connection {
        location: NOWHERE,
        port: name(alloc, 0, "no_name_here")?,
        value: None,
    })?;
    list.push(Inst {
        name: second,
        paren: NOWHERE,
        connections: Connections::ByName(named),
    })?;
    Ok(Item::Instances(Instance {
        name: name(alloc, 0, "sub")?,
        drive: None,
        delay: None,
        instances: list,
    }))
}

fn module(alloc: Global) -> Result<Module, AllocError> {
    let mut items = Items::new(alloc);
    items.push(vectors(alloc)?)?;
    items.push(assigned(alloc)?)?;
    items.push(charged(alloc, 8, "c", Some(Charge::Large), delay(5))?)?;
    items.push(charged(alloc, 9, "d", None, None)?)?;
    items.push(Item::Cell(CellDirective {
        location: NOWHERE,
        word: CellWord::Celldefine,
    }))?;
    items.push(assignment(alloc)?)?;
    items.push(gate(alloc)?)?;
    items.push(instances(alloc)?)?;
    Ok(Module {
        location: NOWHERE,
        word: ModuleWord::Module,
        name: name(alloc, 0, "m")?,
        ports: header(alloc)?,
        items,
    })
}

/// A net that is found, by its direction, kind, range and delay.
fn found(
    direction: Option<Direction>,
    kind: NetKind,
    range: Option<RangeBounds>,
    delay: Option<usize>,
) -> Option<ScopeNet> {
    Some(ScopeNet {
        direction,
        kind,
        range,
        delay,
    })
}

#[test]
fn a_module_has_its_names_and_nets(rt: HostRuntime) -> Result<(), Fail> {
    let module = module(rt.alloc())?;
    let scope = Scope::new(rt.alloc(), &module, Some(ImplicitNetType::Trireg))?;
    let medium = NetKind::Trireg(Charge::Medium);
    let wand = NetKind::Typed(NetType::Wand);
    let inputs = found(Some(Direction::Input), medium, Some(range(3, 0)), None);
    let nets = [
        ("a", inputs),
        ("b", inputs),
        (
            "y",
            found(
                Some(Direction::Output),
                NetKind::Typed(NetType::Tri),
                None,
                None,
            ),
        ),
        ("w", found(None, wand, Some(range(1, 0)), Some(0))),
        ("v", found(None, wand, Some(range(1, 0)), Some(0))),
        ("s", found(None, NetKind::Typed(NetType::Tri0), None, None)),
        (
            "c",
            found(None, NetKind::Trireg(Charge::Large), None, Some(2)),
        ),
        ("d", found(None, medium, None, None)),
        ("t", found(None, medium, None, None)),
        ("g", None),
        ("o", found(None, medium, None, None)),
        ("u", None),
        ("p", found(None, medium, None, None)),
        ("x", None),
        ("q", found(None, medium, None, None)),
    ];
    for (text, net) in nets {
        assert_eq!(rt; scope.net_of(text.as_bytes()), net, "at {text}");
    }
    assert_eq!(rt; scope.net_of(b"no_name_here"), None);
    assert_eq!(rt; scope.names.find(b"u"), Some(11));
    assert_eq!(rt; scope.names.len(), 15);
    let places = scope.places();
    assert_eq!(rt; places.implicit, None);
    assert_eq!(rt; places.undeclared, None);
    let strict = Scope::new(rt.alloc(), &module, None)?;
    assert_eq!(rt; token_of(strict.places().implicit), 11);
    assert_eq!(rt; strict.net_of(b"t"), None);
    Ok(())
}

/// `module m(a); inout [3:0] a; endmodule`
#[test]
fn a_header_of_names_and_a_direction(rt: HostRuntime) -> Result<(), Fail> {
    let alloc = rt.alloc();
    let mut items = Items::new(alloc);
    items.push(Item::Ports(PortDecl {
        location: NOWHERE,
        direction: Direction::Inout,
        net_type: None,
        range: Some(range(3, 0)),
        names: names(alloc, 2, &["a"])?,
    }))?;
    let module = Module {
        location: NOWHERE,
        word: ModuleWord::Module,
        name: name(alloc, 0, "m")?,
        ports: Ports::Names(names(alloc, 1, &["a"])?),
        items,
    };
    let scope = Scope::new(alloc, &module, Some(ImplicitNetType::Wire))?;
    let net = found(
        Some(Direction::Inout),
        NetKind::Typed(NetType::Wire),
        Some(range(3, 0)),
        None,
    );
    assert_eq!(rt; scope.net_of(b"a"), net);
    assert_eq!(rt; scope.places().ports, None);
    Ok(())
}
