mod plans;

use byte_lists::Bytes;
use delay_rule::Delays;
use flat_net::{Element, Find, NetKind};
use flattening::*;
use net_islands::NetClass;
use netlist_plan::NetClaim;
use plans::{delays, plans};
use std::alloc::{AllocError, Global};
use std::fmt::Write;
use std::test::Fail;
use v_lexer::ReservedWords;

/// The nets, elements and finds of the top.
fn whole(alloc: Global) -> Result<FlatLists, AllocError> {
    let words = ReservedWords::new(alloc)?;
    flatten(alloc, &words, &plans(alloc)?, &delays(alloc)?, 1)
}

/// Names, each with a line end behind it.
fn lines(alloc: Global, names: &[Bytes]) -> Result<Vec<u8>, AllocError> {
    let mut text = Vec::new(alloc);
    for name in names {
        text.extend_from_slice(name.as_slice())?;
        text.push(b'\n')?;
    }
    Ok(text)
}

/// Numbers, each with a space behind it.
fn show_numbers(text: &mut String, numbers: &[u32]) -> Result<(), AllocError> {
    for number in numbers {
        write!(text, "{number} ")?;
    }
    Ok(())
}

/// The pins, the ends and how many delays elements have.
fn pins(alloc: Global, elements: &[Element]) -> Result<String, AllocError> {
    let mut text = String::new(alloc);
    for element in elements {
        show_numbers(&mut text, element.outs.as_slice())?;
        text.push_str("< ")?;
        show_numbers(&mut text, element.ins.as_slice())?;
        if let Some((first, second)) = element.ends {
            write!(text, "({first} {second}) ")?;
        }
        write!(text, "#{}\n", element.delays.count)?;
    }
    Ok(text)
}

/// Names with the numbers that they find.
fn found(alloc: Global, finds: &[Find]) -> Result<Vec<u8>, AllocError> {
    let mut text = Vec::new(alloc);
    for find in finds {
        text.extend_from_slice(find.name.as_slice())?;
        let mut numbers = String::new(alloc);
        numbers.push_str(": ")?;
        show_numbers(&mut numbers, find.nets.as_slice())?;
        text.extend_from_slice(numbers.as_bytes())?;
        text.push(b'\n')?;
    }
    Ok(text)
}

/// Claims, each with its net, its charge and how many delays it has.
fn claimed(alloc: Global, claims: &[(u32, NetClaim)]) -> Result<String, AllocError> {
    let mut text = String::new(alloc);
    for (net, claim) in claims {
        write!(text, "{net}:{}", claim.class.charge)?;
        if let Some(delays) = claim.delays {
            write!(text, "#{}", delays.count)?;
        }
        text.push_str(" ")?;
    }
    Ok(text)
}

#[test]
fn nets_that_are_connected_outside_get_no_name(rt: HostRuntime) -> Result<(), Fail> {
    let flat = whole(rt.alloc())?;
    let names = lines(rt.alloc(), flat.net_names.as_slice())?;
    assert_eq!(rt;
        names.as_slice(),
        b"o\ni[1]\ni[2]\n#0[0]\nu.k\n\\1 .a[0]\n\\1 .k\n".as_slice()
    );
    let claims = claimed(rt.alloc(), flat.claims.as_slice())?;
    assert_eq!(rt;
        claims.as_str(),
        "0:0 1:0 2:0 3:0 0:0 2:0 1:0 4:2#3 0:0 3:0 5:0 6:2#3 "
    );
    Ok(())
}

#[test]
fn elements_have_the_numbers_of_their_nets(rt: HostRuntime) -> Result<(), Fail> {
    let flat = whole(rt.alloc())?;
    let names = lines(rt.alloc(), flat.element_names.as_slice())?;
    assert_eq!(rt;
        names.as_slice(),
        b"#0[0]\nu.#0\nu.sw.n\n\\1 .#0\n\\1 .sw.n\n".as_slice()
    );
    let pins = pins(rt.alloc(), flat.elements.as_slice())?;
    let wanted = "3 < #0\n0 < 2 1 #1\n0 < 1 4 (2 4) #0\n0 < 3 5 #1\n0 < 5 6 (3 6) #0\n";
    assert_eq!(rt; pins.as_str(), wanted);
    assert_eq!(rt;
        flat.resistive.as_slice(),
        [false, false, true, false, true].as_slice()
    );
    Ok(())
}

#[test]
fn names_find_nets_and_bits(rt: HostRuntime) -> Result<(), Fail> {
    let flat = whole(rt.alloc())?;
    let text = found(rt.alloc(), flat.finds.as_slice())?;
    let wanted =
        b"o: 0 \ni: 1 2 \ni[1]: 1 \ni[2]: 2 \n#0: 3 \n#0[0]: 3 \nu.y: 0 \nu.a: 2 1 \nu.a[1]: 2 \nu.a[0]: 1 \nu.k: 4 \n\\1 .y: 0 \n\\1 .a: 3 5 \n\\1 .a[1]: 3 \n\\1 .a[0]: 5 \n\\1 .k: 6 \n";
    assert_eq!(rt; text.as_slice(), wanted.as_slice());
    Ok(())
}

/// A claim of a kind with so many delays of 1 tick, where it has some.
fn claim(kind: NetKind, charge: u8, delays: Option<Delays>) -> NetClaim {
    NetClaim {
        class: NetClass { kind, charge },
        delays,
    }
}

#[test]
fn the_first_claim_that_says_something_counts(rt: HostRuntime) -> Result<(), Fail> {
    let delays = Delays {
        count: 2,
        d: [1, 1, 0],
    };
    let claims = [
        (1, claim(NetKind::Wire, 0, None)),
        (0, claim(NetKind::Wire, 0, Some(delays))),
        (1, claim(NetKind::Trireg, 4, None)),
        (1, claim(NetKind::Trireg, 1, Some(delays))),
        (7, claim(NetKind::Tri0, 0, None)),
        (0, claim(NetKind::And, 0, None)),
    ];
    let of_nets = net_claims(rt.alloc(), 3, &claims)?;
    let mut text = String::new(rt.alloc());
    for claim in &of_nets {
        write!(
            text,
            "{:?} {} {:?}, ",
            claim.class.kind,
            claim.class.charge,
            claim.delays.is_some()
        )?;
    }
    assert_eq!(rt;
        text.as_str(),
        "Wire 0 true, Trireg 4 false, Wire 0 false, "
    );
    Ok(())
}
