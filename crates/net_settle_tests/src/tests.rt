ghost use Rattle.std.specs.Prelude.{◌≡◌, true, All};
ghost use Rattle.net_settle.specs.Conditions.{EndsWithin, IsChargeLevel};

mod search;

use level_range::{Conduct, Kind, Range, percent_v};
use net_settle::{KindList, LevelList, Link, LinkList, Scratch, Shape, settle};
use search::settled_bounds;
use std::alloc::{AllocError, Global};
use std::process::Abort;
use std::test::Fail;

/// Whether each end of a link is among so many nets.
fn ends_within(links: &[Link], nets: usize) -> bool
    ensures { result ≡ true → EndsWithin nets links.now }
{
    for link in links {
        if link.a as usize >= nets || link.b as usize >= nets {
            return false;
        }
    }
    true
}

/// Whether each level is that of a charge.
fn are_charge_levels(levels: &[u8]) -> bool
    ensures { result ≡ true → All IsChargeLevel levels.now }
{
    for level in levels {
        if *level != 0 && *level != 1 && *level != 2 && *level != 4 {
            return false;
        }
    }
    true
}

/// Signals by their bounds.
fn ranges(rt: &impl Abort, alloc: Global, bounds: &[(i8, i8)]) -> Result<Vec<Range>, AllocError> {
    let mut all = Vec::new(alloc);
    for (lo, hi) in bounds {
        assert!(rt; -7 <= *lo && *lo <= *hi && *hi <= 7);
        all.push(Range::new(*lo, *hi))?;
    }
    Ok(all)
}

/// The signals as `%v` prints them, with a blank after each.
fn texts(alloc: Global, signals: &[Range]) -> Result<Vec<u8>, AllocError> {
    let mut all = Vec::new(alloc);
    for signal in signals {
        all.extend_from_slice(percent_v(*signal).as_slice())?;
        all.push(b' ')?;
    }
    Ok(all)
}

/// An island of plain nets, and what it settles to.
#[derive(Drop)]
struct Case {
    levels: &'static [u8],
    links: &'static [Link],
    on: &'static [Conduct],
    own: &'static [(i8, i8)],
    charges: &'static [(i8, i8)],
    signals: &'static str,
    left: &'static str,
}

fn settles(rt: &impl Abort, alloc: Global, case: &Case) -> Result<(), AllocError> {
    let nets = case.levels.len();
    let shape = Shape {
        kinds: KindList::from_vec(vec![in alloc; Kind::Plain; nets]?),
        charge: LevelList::from_vec(case.levels.to_vec(alloc)?),
        links: LinkList::from_vec(case.links.to_vec(alloc)?),
    };
    let own = ranges(rt, alloc, case.own)?;
    let mut charges = ranges(rt, alloc, case.charges)?;
    let mut driven = ranges(rt, alloc, case.own)?;
    let mut out = ranges(rt, alloc, case.own)?;
    assert!(rt; nets <= 100);
    assert_eq!(rt; shape.kinds.as_slice().len(), nets);
    assert_eq!(rt; shape.charge.as_slice().len(), nets);
    assert_eq!(rt; shape.links.as_slice().len(), case.on.len());
    assert_eq!(rt; own.len(), nets);
    assert_eq!(rt; charges.len(), nets);
    assert_eq!(rt; driven.len(), nets);
    assert_eq!(rt; out.len(), nets);
    assert!(rt; ends_within(shape.links.as_slice(), nets));
    assert!(rt; are_charge_levels(shape.charge.as_slice()));
    let mut scratch = Scratch::new(alloc);
    scratch.reserve(nets as u32)?;
    settle(
        &shape,
        own.as_slice(),
        case.on,
        charges.as_mut_slice(),
        driven.as_mut_slice(),
        out.as_mut_slice(),
        &mut scratch,
    );
    assert_eq!(rt;
        texts(alloc, out.as_slice())?.as_slice(),
        case.signals.as_bytes()
    );
    assert_eq!(rt;
        texts(alloc, charges.as_slice())?.as_slice(),
        case.left.as_bytes()
    );
    Ok(())
}

const PLAIN: Link = Link {
    a: 0,
    b: 1,
    resistive: false,
};

const REDUCING: [Link; 4] = [
    Link {
        a: 0,
        b: 1,
        resistive: true,
    },
    Link {
        a: 1,
        b: 2,
        resistive: true,
    },
    Link {
        a: 3,
        b: 2,
        resistive: true,
    },
    Link {
        a: 0,
        b: 4,
        resistive: false,
    },
];

const LOOP: [Link; 3] = [
    PLAIN,
    Link {
        a: 1,
        b: 2,
        resistive: false,
    },
    Link {
        a: 1,
        b: 2,
        resistive: false,
    },
];

const UNKNOWN_FIRST: [Conduct; 3] = [Conduct::Unknown, Conduct::On, Conduct::On];

#[test]
fn settles_islands_of_plain_nets_and_triregs(rt: HostRuntime) -> Result<(), Fail> {
    let cases = [
        Case {
            levels: &[0; 5],
            links: &REDUCING,
            on: &[Conduct::On; 4],
            own: &[(7, 7), (0, 0), (0, 0), (0, 0), (0, 0)],
            charges: &[(0, 0); 5],
            signals: "Su1 Pu1 We1 Me1 St1 ",
            left: "HiZ HiZ HiZ HiZ HiZ ",
        },
        Case {
            levels: &[0; 3],
            links: &LOOP,
            on: &UNKNOWN_FIRST,
            own: &[(-3, -3), (0, 0), (0, 0)],
            charges: &[(0, 0); 3],
            signals: "We0 WeL WeL ",
            left: "HiZ HiZ HiZ ",
        },
        Case {
            levels: &[0; 3],
            links: &LOOP,
            on: &UNKNOWN_FIRST,
            own: &[(5, 5), (0, 0), (0, 0)],
            charges: &[(0, 0); 3],
            signals: "Pu1 PuH PuH ",
            left: "HiZ HiZ HiZ ",
        },
        Case {
            levels: &[4],
            links: &[],
            on: &[],
            own: &[(-3, -3)],
            charges: &[(4, 4)],
            signals: "We0 ",
            left: "La0 ",
        },
        Case {
            levels: &[4],
            links: &[],
            on: &[],
            own: &[(0, 3)],
            charges: &[(-4, -4)],
            signals: "LaX ",
            left: "LaX ",
        },
        Case {
            levels: &[1, 4],
            links: &[PLAIN],
            on: &[Conduct::On],
            own: &[(0, 0); 2],
            charges: &[(-1, -1), (4, 4)],
            signals: "La1 La1 ",
            left: "Sm1 La1 ",
        },
        Case {
            levels: &[1, 4],
            links: &[PLAIN],
            on: &[Conduct::Off],
            own: &[(0, 0); 2],
            charges: &[(1, 1), (4, 4)],
            signals: "Sm1 La1 ",
            left: "Sm1 La1 ",
        },
    ];
    for case in cases.iter() {
        settles(&rt, rt.alloc(), case)?;
    }
    Ok(())
}

fn crosses<T: Send + Sync>(value: T) -> T {
    value
}

#[test]
fn a_shape_may_be_shared(rt: HostRuntime) -> Result<(), Fail> {
    let alloc = rt.alloc();
    let shape = crosses(Shape {
        kinds: KindList::from_vec(vec![in alloc; Kind::And]?),
        charge: LevelList::from_vec(vec![in alloc; 0]?),
        links: LinkList::from_vec(Vec::new(alloc)),
    });
    assert_eq!(rt; shape.kinds.into_vec().as_slice(), [Kind::And].as_slice());
    assert_eq!(rt; shape.charge.into_vec().as_slice(), [0].as_slice());
    assert_eq!(rt; shape.links.into_vec().len(), 0);
    Ok(())
}

/// What an island of at most 10,000 plain nets settles to.
fn driven_by(
    rt: &impl Abort,
    alloc: Global,
    links: &[Link],
    on: &[Conduct],
    own: &[Range],
) -> Result<Vec<Range>, AllocError> {
    let nets = own.len();
    let shape = Shape {
        kinds: KindList::from_vec(vec![in alloc; Kind::Plain; nets]?),
        charge: LevelList::from_vec(vec![in alloc; 0; nets]?),
        links: LinkList::from_vec(links.to_vec(alloc)?),
    };
    let mut charges = vec![in alloc; Range::new(0, 0); nets]?;
    let mut driven = vec![in alloc; Range::new(0, 0); nets]?;
    let mut out = vec![in alloc; Range::new(0, 0); nets]?;
    assert!(rt; nets <= 10_000);
    assert_eq!(rt; shape.kinds.as_slice().len(), nets);
    assert_eq!(rt; shape.charge.as_slice().len(), nets);
    assert_eq!(rt; shape.links.as_slice().len(), on.len());
    assert_eq!(rt; charges.len(), nets);
    assert_eq!(rt; driven.len(), nets);
    assert_eq!(rt; out.len(), nets);
    assert!(rt; ends_within(shape.links.as_slice(), nets));
    assert!(rt; are_charge_levels(shape.charge.as_slice()));
    let mut scratch = Scratch::new(alloc);
    scratch.reserve(nets as u32)?;
    settle(
        &shape,
        own,
        on,
        charges.as_mut_slice(),
        driven.as_mut_slice(),
        out.as_mut_slice(),
        &mut scratch,
    );
    Ok(driven)
}

/// Switches from each of so many nets to the next, of which the one in the middle is off.
fn chain(alloc: Global, nets: u32) -> Result<(Vec<Link>, Vec<Conduct>), AllocError> {
    let mut links = Vec::new(alloc);
    let mut on = Vec::new(alloc);
    for net in 1..nets {
        links.push(Link {
            a: net - 1,
            b: net,
            resistive: false,
        })?;
        on.push(if net == nets / 2 {
            Conduct::Off
        } else {
            Conduct::On
        })?;
    }
    Ok((links, on))
}

/// One signal and then another, each so many times.
fn two_signals(
    alloc: Global,
    first: Range,
    second: Range,
    count: u32,
) -> Result<Vec<Range>, AllocError> {
    let mut all = vec![in alloc; first; count as usize]?;
    for _ in 0..count {
        all.push(second)?;
    }
    Ok(all)
}

/// The signals of nets of which the first and the last alone are driven.
fn driven_at_ends(
    alloc: Global,
    first: Range,
    last: Range,
    nets: u32,
) -> Result<Vec<Range>, AllocError> {
    let mut all = vec![in alloc; first]?;
    for _ in 2..nets {
        all.push(Range::new(0, 0))?;
    }
    all.push(last)?;
    Ok(all)
}

#[test]
fn a_long_chain_settles_from_both_ends(rt: HostRuntime) -> Result<(), Fail> {
    let alloc = rt.alloc();
    let strong = Range::new(6, 6);
    let weak = Range::new(-3, -3);
    let (links, on) = chain(alloc, 6_000)?;
    let own = driven_at_ends(alloc, strong, weak, 6_000)?;
    let driven = driven_by(&rt, alloc, &links, &on, &own)?;
    let settled = two_signals(alloc, strong, weak, 3_000)?;
    assert_eq!(rt; driven.as_slice(), settled.as_slice());
    Ok(())
}

/// The next number below ten of a sequence.
fn draw(state: &mut u32) -> u8 {
    *state = state.wrapping_mul(1_103_515_245).wrapping_add(12_345);
    ((*state >> 16) % 10) as u8
}

/// One to five switches among three nets, each on, off or unknown, some of them resistive.
fn draw_switches(alloc: Global, state: &mut u32) -> Result<(Vec<Link>, Vec<Conduct>), AllocError> {
    let mut links = Vec::new(alloc);
    let mut on = Vec::new(alloc);
    for _ in 0..1 + draw(state) / 2 {
        links.push(Link {
            a: u32::from(draw(state) % 3),
            b: u32::from(draw(state) % 3),
            resistive: draw(state) < 4,
        })?;
        on.push(match draw(state) {
            0..=4 => Conduct::On,
            5 => Conduct::Off,
            _ => Conduct::Unknown,
        })?;
    }
    Ok((links, on))
}

fn draw_signal(state: &mut u32) -> Range {
    match draw(state) {
        0 => Range::new(-3, -3),
        1 => Range::new(5, 5),
        2 => Range::new(-6, 6),
        3 => Range::new(-6, 0),
        4 => Range::new(7, 7),
        5 => Range::new(-5, -2),
        6 => Range::new(0, 3),
        _ => Range::new(0, 0),
    }
}

/// The bounds that `settle` gives are the one list that is settled, on both sides.
fn settles_as_searched(rt: &impl Abort, alloc: Global, state: &mut u32) -> Result<(), AllocError> {
    let (links, on) = draw_switches(alloc, state)?;
    let first = draw_signal(state);
    let second = draw_signal(state);
    let third = draw_signal(state);
    let own = vec![in alloc; first, second, third]?;
    let driven = driven_by(rt, alloc, &links, &on, &own)?;
    let lower = settled_bounds(&links, &on, &[first.lo, second.lo, third.lo]);
    let upper = settled_bounds(&links, &on, &[-first.hi, -second.hi, -third.hi]);
    assert_eq!(rt; lower.0, 1);
    assert_eq!(rt; upper.0, 1);
    assert_eq!(rt; driven.len(), 3);
    assert_eq!(rt; [driven[0].lo, driven[1].lo, driven[2].lo], lower.1);
    assert!(rt; i16::from(driven[0].hi) == -i16::from(upper.1[0]));
    assert!(rt; i16::from(driven[1].hi) == -i16::from(upper.1[1]));
    assert!(rt; i16::from(driven[2].hi) == -i16::from(upper.1[2]));
    Ok(())
}

#[test]
fn settles_as_a_search_of_all_bounds_does(rt: HostRuntime) -> Result<(), Fail> {
    let mut state = 1;
    for _ in 0..300 {
        settles_as_searched(&rt, rt.alloc(), &mut state)?;
    }
    Ok(())
}
