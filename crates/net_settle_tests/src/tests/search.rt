//! A slow reading of the definition: of all lists of bounds of three nets, those that are settled.
use level_range::Conduct;
use net_settle::Link;

/// A level behind a switch.
fn weakened(level: i8, resistive: bool) -> i8 {
    let strength = match (resistive, level.unsigned_abs()) {
        (false, 7) => 6,
        (true, 6 | 7) => 5,
        (true, 5) => 3,
        (true, 3 | 4) => 2,
        (true, 2) => 1,
        (_, other) => other.min(7) as i8,
    };
    if level < 0 { -strength } else { strength }
}

/// Of two lower bounds the one of greater absolute level, at equal levels the negative one.
fn better(x: i8, y: i8) -> i8 {
    if x.unsigned_abs() > y.unsigned_abs() {
        x
    } else if y.unsigned_abs() > x.unsigned_abs() {
        y
    } else {
        x.min(y)
    }
}

/// What a switch carries of a lower bound.
fn carried_bound(link: &Link, on: Conduct, bound: i8) -> i8 {
    let level = weakened(bound, link.resistive);
    match on {
        Conduct::On => level,
        Conduct::Off => 0,
        Conduct::Unknown => level.min(0),
    }
}

/// The bound of a net, 0 past the third.
fn at(bounds: &[i8; 3], net: u32) -> i8 {
    match net {
        0 => bounds[0],
        1 => bounds[1],
        2 => bounds[2],
        _ => 0,
    }
}

/// The best of 0, the net's own bound and all that switches carry to it.
fn best(links: &[Link], on: &[Conduct], own: i8, bounds: &[i8; 3], net: u32) -> i8 {
    let mut best = better(0, own);
    for (link, on) in links.iter().zip(on.iter()) {
        if link.b == net {
            best = better(best, carried_bound(link, *on, at(bounds, link.a)));
        }
        if link.a == net {
            best = better(best, carried_bound(link, *on, at(bounds, link.b)));
        }
    }
    best
}

/// Whether a net gets its bound from another that has a source.
fn has_source(
    links: &[Link],
    on: &[Conduct],
    bounds: &[i8; 3],
    sources: &[bool; 3],
    net: u32,
) -> bool {
    links.iter().zip(on.iter()).any(|(link, on)| {
        link.b == net && from(link, *on, bounds, sources, link.a, net)
            || link.a == net && from(link, *on, bounds, sources, link.b, net)
    })
}

fn from(
    link: &Link,
    on: Conduct,
    bounds: &[i8; 3],
    sources: &[bool; 3],
    source: u32,
    net: u32,
) -> bool {
    let there = match source {
        0 => sources[0],
        1 => sources[1],
        2 => sources[2],
        _ => false,
    };
    there && carried_bound(link, on, at(bounds, source)) == at(bounds, net)
}

/// Whether each bound other than 0 has a source.
fn are_sourced(links: &[Link], on: &[Conduct], own: &[i8; 3], bounds: &[i8; 3]) -> bool {
    let mut sources = [
        bounds[0] == own[0],
        bounds[1] == own[1],
        bounds[2] == own[2],
    ];
    for _ in 0..2 {
        sources = [
            sources[0] || has_source(links, on, bounds, &sources, 0),
            sources[1] || has_source(links, on, bounds, &sources, 1),
            sources[2] || has_source(links, on, bounds, &sources, 2),
        ];
    }
    (bounds[0] == 0 || sources[0])
        && (bounds[1] == 0 || sources[1])
        && (bounds[2] == 0 || sources[2])
}

/// Whether the lower bounds are settled.
fn are_settled(links: &[Link], on: &[Conduct], own: &[i8; 3], bounds: &[i8; 3]) -> bool {
    best(links, on, own[0], bounds, 0) == bounds[0]
        && best(links, on, own[1], bounds, 1) == bounds[1]
        && best(links, on, own[2], bounds, 2) == bounds[2]
        && are_sourced(links, on, own, bounds)
}

/// How many lists of lower bounds are settled, and the last of them.
pub(crate) fn settled_bounds(links: &[Link], on: &[Conduct], own: &[i8; 3]) -> (usize, [i8; 3]) {
    let mut count: usize = 0;
    let mut last = [0; 3];
    for code in 0..3_375 {
        let bounds = [
            (code % 15) as i8 - 7,
            (code / 15 % 15) as i8 - 7,
            (code / 225 % 15) as i8 - 7,
        ];
        if are_settled(links, on, own, &bounds) {
            count = count.saturating_add(1);
            last = bounds;
        }
    }
    (count, last)
}
