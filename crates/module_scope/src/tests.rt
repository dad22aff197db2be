mod modules;
mod rows;

use super::*;
use crate::mentions::MentionList;
use crate::scopes::scope_with;
use byte_lists::Bytes;
use rows::{Row, rows};
use std::alloc::{AllocError, Global};
use std::test::Fail;
use v_tree::{ImplicitNetType, Location, Name};

/// A name at the token with this number.
fn name(alloc: Global, token: u32, text: &str) -> Result<Name, AllocError> {
    Ok(Name {
        location: Location { line: 1, token },
        text: Bytes::from_vec(text.as_bytes().to_vec(alloc)?),
    })
}

/// The first places of the rules, where the mentions of a row stand at the tokens from 1 on.
fn places_of(alloc: Global, row: &Row) -> Result<ScopePlaces, AllocError> {
    let mut list = MentionList::new(alloc);
    let mut token: u32 = 0;
    for (text, role) in row.mentions {
        token = token.wrapping_add(1);
        let name = name(alloc, token, text)?;
        list.push(*role, &name)?;
    }
    let default = if row.makes {
        Some(ImplicitNetType::Wire)
    } else {
        None
    };
    Ok(scope_with(alloc, default, list)?.places())
}

/// The number of a place's token, or 0 where there is none.
fn token_of(place: Option<Location>) -> u32 {
    match place {
        Some(place) => place.token,
        None => 0,
    }
}

#[test]
fn each_rule_has_its_first_place(rt: HostRuntime) -> Result<(), Fail> {
    for row in rows() {
        let places = places_of(rt.alloc(), row)?;
        let found = [
            token_of(places.ports),
            token_of(places.repeated),
            token_of(places.undeclared),
            token_of(places.selects),
            token_of(places.ranges),
            token_of(places.implicit),
        ];
        assert_eq!(rt; found.as_slice(), row.places.as_slice(), "at {}", row.text);
    }
    Ok(())
}
