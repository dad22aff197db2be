use level_range::Logic;
use std::alloc::{AllocError, Global};
use std::process::Abort;
use std::test::Fail;
use udp_table::{Base, RowList, Sym, SymList, Udp, UdpFault, UdpRow, after_changes, build, level};

const EDGES: [Sym; 6] = [
    Sym::Rise,
    Sym::Fall,
    Sym::Pos,
    Sym::Neg,
    Sym::Change,
    Sym::Edge(Base::Zero, Base::Any),
];

const EMPTY_EDGE: Sym = Sym::Edge(Base::X, Base::X);

/// A row of two inputs.
fn row(
    alloc: Global,
    first: Sym,
    second: Sym,
    state: Option<Sym>,
    out: Sym,
) -> Result<UdpRow, AllocError> {
    let ins = SymList::from_vec([first, second].to_vec(alloc)?);
    Ok(UdpRow { ins, state, out })
}

/// Why a primitive of two inputs and one row is refused.
fn fault(
    alloc: Global,
    sequential: bool,
    input: Sym,
    state: Option<Sym>,
    out: Sym,
) -> Result<Option<UdpFault>, AllocError> {
    let mut rows = Vec::new(alloc);
    rows.push(row(alloc, Sym::Any, input, state, out)?)?;
    let rows = RowList::from_vec(rows);
    Ok(build(alloc, 2, sequential, Logic::X, &rows).err())
}

#[test]
fn refuses_a_symbol_in_a_wrong_place(rt: HostRuntime) -> Result<(), Fail> {
    let alloc = rt.alloc();
    let bad = Some(UdpFault::BadSymbol(0));
    let any = Some(Sym::Any);
    for edge in EDGES {
        assert_eq!(rt; fault(alloc, false, edge, None, Sym::One)?, bad);
        assert_eq!(rt; fault(alloc, true, edge, any, Sym::One)?, None);
        assert_eq!(rt; fault(alloc, true, Sym::One, Some(edge), Sym::One)?, bad);
        assert_eq!(rt; fault(alloc, true, Sym::One, any, edge)?, bad);
    }
    assert_eq!(rt; fault(alloc, true, EMPTY_EDGE, any, Sym::One)?, bad);
    assert_eq!(rt; fault(alloc, true, Sym::Same, any, Sym::One)?, bad);
    assert_eq!(rt;
        fault(alloc, true, Sym::One, Some(Sym::Same), Sym::One)?,
        bad
    );
    assert_eq!(rt; fault(alloc, true, Sym::One, any, Sym::Any)?, bad);
    assert_eq!(rt; fault(alloc, true, Sym::One, any, Sym::Both)?, bad);
    assert_eq!(rt; fault(alloc, false, Sym::One, None, Sym::Same)?, bad);
    assert_eq!(rt; fault(alloc, true, Sym::One, None, Sym::One)?, bad);
    assert_eq!(rt; fault(alloc, false, Sym::One, any, Sym::One)?, bad);
    assert_eq!(rt; fault(alloc, false, Sym::Both, None, Sym::X)?, None);
    assert_eq!(rt; fault(alloc, true, Sym::One, any, Sym::Same)?, None);
    Ok(())
}

#[test]
fn refuses_rows_that_disagree(rt: HostRuntime) -> Result<(), Fail> {
    let alloc = rt.alloc();
    let mut rows = Vec::new(alloc);
    rows.push(row(alloc, Sym::Zero, Sym::Any, None, Sym::One)?)?;
    rows.push(row(alloc, Sym::Any, Sym::Zero, None, Sym::Zero)?)?;
    let rows = RowList::from_vec(rows);
    assert_eq!(rt;
        build(alloc, 2, false, Logic::X, &rows).err(),
        Some(UdpFault::Clash(0, 1))
    );
    assert_eq!(rt;
        build(alloc, 11, false, Logic::X, &rows).err(),
        Some(UdpFault::TooManyInputs)
    );
    assert_eq!(rt;
        build(alloc, 0, false, Logic::X, &rows).err(),
        Some(UdpFault::TooManyInputs)
    );
    assert_eq!(rt;
        build(alloc, 3, false, Logic::X, &rows).err(),
        Some(UdpFault::BadSymbol(0))
    );
    let mut rows = Vec::new(alloc);
    rows.push(row(alloc, Sym::Rise, Sym::Fall, Some(Sym::Any), Sym::One)?)?;
    let rows = RowList::from_vec(rows);
    assert_eq!(rt;
        build(alloc, 2, true, Logic::X, &rows).err(),
        Some(UdpFault::TwoEdges(0))
    );
    Ok(())
}

/// A sequential primitive of two inputs.
fn sequential(alloc: Global, rows: Vec<UdpRow>) -> Result<Option<Udp>, AllocError> {
    let rows = RowList::from_vec(rows);
    Ok(build(alloc, 2, true, Logic::Zero, &rows).ok())
}

/// The flip-flop whose clock is the first input, or the second where `clock_last`.
fn flip_flop(alloc: Global, clock_last: bool) -> Result<Option<Udp>, AllocError> {
    let any = Some(Sym::Any);
    let table = [
        (Sym::Rise, Sym::Zero, Sym::Zero),
        (Sym::Rise, Sym::One, Sym::One),
        (Sym::Neg, Sym::Any, Sym::Same),
        (Sym::Any, Sym::Change, Sym::Same),
    ];
    let mut rows = Vec::new(alloc);
    for (clock, input, out) in table {
        let (first, second) = if clock_last {
            (input, clock)
        } else {
            (clock, input)
        };
        rows.push(row(alloc, first, second, any, out)?)?;
    }
    sequential(alloc, rows)
}

/// The flip-flop that a 0 of its second input resets.
fn reset(alloc: Global) -> Result<Option<Udp>, AllocError> {
    let any = Some(Sym::Any);
    let mut rows = Vec::new(alloc);
    rows.push(row(alloc, Sym::Any, Sym::Zero, any, Sym::Zero)?)?;
    rows.push(row(alloc, Sym::Rise, Sym::Any, any, Sym::One)?)?;
    rows.push(row(alloc, Sym::Neg, Sym::Any, any, Sym::Same)?)?;
    rows.push(row(alloc, Sym::Any, Sym::Change, any, Sym::Same)?)?;
    sequential(alloc, rows)
}

/// The state of a primitive that starts at 0, after both inputs go from 0 to `first` and `second`.
fn steps(rt: &impl Abort, udp: Option<Udp>, first: Logic, second: Logic) -> Logic {
    let udp = udp.expect(rt, "accepted");
    assert!(rt; udp.sequential());
    assert_eq!(rt; udp.inputs(), 2);
    assert!(rt; first != Logic::Z && second != Logic::Z);
    let old = [Logic::Zero, Logic::Zero];
    after_changes(&udp, &old, &[first, second], udp.start())
}

#[test]
fn applies_changes_in_port_order(rt: HostRuntime) -> Result<(), Fail> {
    let alloc = rt.alloc();
    let (zero, one) = (Logic::Zero, Logic::One);
    assert_eq!(rt; steps(&rt, flip_flop(alloc, false)?, one, one), zero);
    assert_eq!(rt; steps(&rt, flip_flop(alloc, true)?, one, one), one);
    assert_eq!(rt; steps(&rt, reset(alloc)?, one, zero), zero);
    assert_eq!(rt; steps(&rt, reset(alloc)?, one, one), zero);
    Ok(())
}

#[test]
fn gives_x_where_no_row_matches(rt: HostRuntime) -> Result<(), Fail> {
    let alloc = rt.alloc();
    let mut rows = Vec::new(alloc);
    rows.push(row(alloc, Sym::Zero, Sym::Any, None, Sym::Zero)?)?;
    rows.push(row(alloc, Sym::One, Sym::Both, None, Sym::One)?)?;
    let rows = RowList::from_vec(rows);
    let udp = build(alloc, 2, false, Logic::X, &rows).ok();
    let udp = udp.expect(&rt, "accepted");
    assert!(rt; !udp.sequential());
    assert_eq!(rt; udp.inputs(), 2);
    assert_eq!(rt; udp.rows().as_slice().len(), 2);
    assert_eq!(rt; level(&udp, &[Logic::Zero, Logic::X]), Logic::Zero);
    assert_eq!(rt; level(&udp, &[Logic::One, Logic::Zero]), Logic::One);
    assert_eq!(rt; level(&udp, &[Logic::One, Logic::X]), Logic::X);
    Ok(())
}

const VALUES: [Sym; 3] = [Sym::Zero, Sym::One, Sym::X];

/// The nine rows of two values, each with the first of them for its output, over and over: `count`
/// rows in all.
fn rows_of_values(alloc: Global, count: usize) -> Result<RowList, AllocError> {
    let mut rows = Vec::new(alloc);
    for k in 0..count {
        let first = VALUES[k % 3];
        rows.push(row(alloc, first, VALUES[k / 3 % 3], None, first)?)?;
    }
    Ok(RowList::from_vec(rows))
}

fn same_row(a: &UdpRow, b: &UdpRow) -> bool {
    a.ins.as_slice() == b.ins.as_slice() && a.state == b.state && a.out == b.out
}

fn same_rows(a: &[UdpRow], b: &[UdpRow]) -> bool {
    if a.len() != b.len() {
        return false;
    }
    for (k, row) in a.iter().enumerate() {
        if !same_row(row, &b[k]) {
            return false;
        }
    }
    true
}

#[test]
fn keeps_every_row_of_a_large_table(rt: HostRuntime) -> Result<(), Fail> {
    let alloc = rt.alloc();
    let rows = rows_of_values(alloc, 1100)?;
    let udp = build(alloc, 2, false, Logic::X, &rows).ok();
    let udp = udp.expect(&rt, "accepted");
    assert_eq!(rt; udp.rows().as_slice().len(), 1100);
    assert!(rt; same_rows(udp.rows().as_slice(), rows.as_slice()));
    let copy = udp.copied(alloc)?;
    assert!(rt; same_rows(copy.rows().as_slice(), rows.as_slice()));
    Ok(())
}
