//! The levels of pull gates, and whether they are right.
use v_tree::{Level, PullGate, Strength};

/// The levels of a pull gate, and whether they are right.
pub struct PullRow {
    pub shows: &'static str,
    pub gate: PullGate,
    pub first: Level,
    pub second: Option<Level>,
    pub is_right: bool,
}

#[rattlefmt::skip]
static ROWS: [PullRow; 42] = [
    PullRow {
        shows: "pullup (strong1)", gate: PullGate::Pullup,
        first: Level { strength: Strength::Strong, of_one: true },
        second: None, is_right: true,
    },
    PullRow {
        shows: "pullup (weak1)", gate: PullGate::Pullup,
        first: Level { strength: Strength::Weak, of_one: true },
        second: None, is_right: true,
    },
    PullRow {
        shows: "pullup (supply1)", gate: PullGate::Pullup,
        first: Level { strength: Strength::Supply, of_one: true },
        second: None, is_right: true,
    },
    PullRow {
        shows: "pullup (highz1)", gate: PullGate::Pullup,
        first: Level { strength: Strength::Highz, of_one: true },
        second: None, is_right: false,
    },
    PullRow {
        shows: "pullup (strong0)", gate: PullGate::Pullup,
        first: Level { strength: Strength::Strong, of_one: false },
        second: None, is_right: false,
    },
    PullRow {
        shows: "pullup (highz0)", gate: PullGate::Pullup,
        first: Level { strength: Strength::Highz, of_one: false },
        second: None, is_right: false,
    },
    PullRow {
        shows: "pullup (strong0, strong1)", gate: PullGate::Pullup,
        first: Level { strength: Strength::Strong, of_one: false },
        second: Some(Level { strength: Strength::Strong, of_one: true }), is_right: true,
    },
    PullRow {
        shows: "pullup (strong1, strong0)", gate: PullGate::Pullup,
        first: Level { strength: Strength::Strong, of_one: true },
        second: Some(Level { strength: Strength::Strong, of_one: false }), is_right: true,
    },
    PullRow {
        shows: "pullup (pull0, weak1)", gate: PullGate::Pullup,
        first: Level { strength: Strength::Pull, of_one: false },
        second: Some(Level { strength: Strength::Weak, of_one: true }), is_right: true,
    },
    PullRow {
        shows: "pullup (supply1, pull0)", gate: PullGate::Pullup,
        first: Level { strength: Strength::Supply, of_one: true },
        second: Some(Level { strength: Strength::Pull, of_one: false }), is_right: true,
    },
    PullRow {
        shows: "pullup (highz0, strong1)", gate: PullGate::Pullup,
        first: Level { strength: Strength::Highz, of_one: false },
        second: Some(Level { strength: Strength::Strong, of_one: true }), is_right: true,
    },
    PullRow {
        shows: "pullup (strong1, highz0)", gate: PullGate::Pullup,
        first: Level { strength: Strength::Strong, of_one: true },
        second: Some(Level { strength: Strength::Highz, of_one: false }), is_right: true,
    },
    PullRow {
        shows: "pullup (strong0, highz1)", gate: PullGate::Pullup,
        first: Level { strength: Strength::Strong, of_one: false },
        second: Some(Level { strength: Strength::Highz, of_one: true }), is_right: false,
    },
    PullRow {
        shows: "pullup (highz1, strong0)", gate: PullGate::Pullup,
        first: Level { strength: Strength::Highz, of_one: true },
        second: Some(Level { strength: Strength::Strong, of_one: false }), is_right: false,
    },
    PullRow {
        shows: "pullup (highz0, highz1)", gate: PullGate::Pullup,
        first: Level { strength: Strength::Highz, of_one: false },
        second: Some(Level { strength: Strength::Highz, of_one: true }), is_right: false,
    },
    PullRow {
        shows: "pullup (highz1, highz0)", gate: PullGate::Pullup,
        first: Level { strength: Strength::Highz, of_one: true },
        second: Some(Level { strength: Strength::Highz, of_one: false }), is_right: false,
    },
    PullRow {
        shows: "pullup (strong1, strong1)", gate: PullGate::Pullup,
        first: Level { strength: Strength::Strong, of_one: true },
        second: Some(Level { strength: Strength::Strong, of_one: true }), is_right: false,
    },
    PullRow {
        shows: "pullup (strong1, weak1)", gate: PullGate::Pullup,
        first: Level { strength: Strength::Strong, of_one: true },
        second: Some(Level { strength: Strength::Weak, of_one: true }), is_right: false,
    },
    PullRow {
        shows: "pullup (strong0, strong0)", gate: PullGate::Pullup,
        first: Level { strength: Strength::Strong, of_one: false },
        second: Some(Level { strength: Strength::Strong, of_one: false }), is_right: false,
    },
    PullRow {
        shows: "pullup (highz1, strong1)", gate: PullGate::Pullup,
        first: Level { strength: Strength::Highz, of_one: true },
        second: Some(Level { strength: Strength::Strong, of_one: true }), is_right: false,
    },
    PullRow {
        shows: "pullup (strong0, highz0)", gate: PullGate::Pullup,
        first: Level { strength: Strength::Strong, of_one: false },
        second: Some(Level { strength: Strength::Highz, of_one: false }), is_right: false,
    },
    PullRow {
        shows: "pulldown (strong1)", gate: PullGate::Pulldown,
        first: Level { strength: Strength::Strong, of_one: true },
        second: None, is_right: false,
    },
    PullRow {
        shows: "pulldown (weak1)", gate: PullGate::Pulldown,
        first: Level { strength: Strength::Weak, of_one: true },
        second: None, is_right: false,
    },
    PullRow {
        shows: "pulldown (supply1)", gate: PullGate::Pulldown,
        first: Level { strength: Strength::Supply, of_one: true },
        second: None, is_right: false,
    },
    PullRow {
        shows: "pulldown (highz1)", gate: PullGate::Pulldown,
        first: Level { strength: Strength::Highz, of_one: true },
        second: None, is_right: false,
    },
    PullRow {
        shows: "pulldown (strong0)", gate: PullGate::Pulldown,
        first: Level { strength: Strength::Strong, of_one: false },
        second: None, is_right: true,
    },
    PullRow {
        shows: "pulldown (highz0)", gate: PullGate::Pulldown,
        first: Level { strength: Strength::Highz, of_one: false },
        second: None, is_right: false,
    },
    PullRow {
        shows: "pulldown (strong0, strong1)", gate: PullGate::Pulldown,
        first: Level { strength: Strength::Strong, of_one: false },
        second: Some(Level { strength: Strength::Strong, of_one: true }), is_right: true,
    },
    PullRow {
        shows: "pulldown (strong1, strong0)", gate: PullGate::Pulldown,
        first: Level { strength: Strength::Strong, of_one: true },
        second: Some(Level { strength: Strength::Strong, of_one: false }), is_right: true,
    },
    PullRow {
        shows: "pulldown (pull0, weak1)", gate: PullGate::Pulldown,
        first: Level { strength: Strength::Pull, of_one: false },
        second: Some(Level { strength: Strength::Weak, of_one: true }), is_right: true,
    },
    PullRow {
        shows: "pulldown (supply1, pull0)", gate: PullGate::Pulldown,
        first: Level { strength: Strength::Supply, of_one: true },
        second: Some(Level { strength: Strength::Pull, of_one: false }), is_right: true,
    },
    PullRow {
        shows: "pulldown (highz0, strong1)", gate: PullGate::Pulldown,
        first: Level { strength: Strength::Highz, of_one: false },
        second: Some(Level { strength: Strength::Strong, of_one: true }), is_right: false,
    },
    PullRow {
        shows: "pulldown (strong1, highz0)", gate: PullGate::Pulldown,
        first: Level { strength: Strength::Strong, of_one: true },
        second: Some(Level { strength: Strength::Highz, of_one: false }), is_right: false,
    },
    PullRow {
        shows: "pulldown (strong0, highz1)", gate: PullGate::Pulldown,
        first: Level { strength: Strength::Strong, of_one: false },
        second: Some(Level { strength: Strength::Highz, of_one: true }), is_right: true,
    },
    PullRow {
        shows: "pulldown (highz1, strong0)", gate: PullGate::Pulldown,
        first: Level { strength: Strength::Highz, of_one: true },
        second: Some(Level { strength: Strength::Strong, of_one: false }), is_right: true,
    },
    PullRow {
        shows: "pulldown (highz0, highz1)", gate: PullGate::Pulldown,
        first: Level { strength: Strength::Highz, of_one: false },
        second: Some(Level { strength: Strength::Highz, of_one: true }), is_right: false,
    },
    PullRow {
        shows: "pulldown (highz1, highz0)", gate: PullGate::Pulldown,
        first: Level { strength: Strength::Highz, of_one: true },
        second: Some(Level { strength: Strength::Highz, of_one: false }), is_right: false,
    },
    PullRow {
        shows: "pulldown (strong1, strong1)", gate: PullGate::Pulldown,
        first: Level { strength: Strength::Strong, of_one: true },
        second: Some(Level { strength: Strength::Strong, of_one: true }), is_right: false,
    },
    PullRow {
        shows: "pulldown (strong1, weak1)", gate: PullGate::Pulldown,
        first: Level { strength: Strength::Strong, of_one: true },
        second: Some(Level { strength: Strength::Weak, of_one: true }), is_right: false,
    },
    PullRow {
        shows: "pulldown (strong0, strong0)", gate: PullGate::Pulldown,
        first: Level { strength: Strength::Strong, of_one: false },
        second: Some(Level { strength: Strength::Strong, of_one: false }), is_right: false,
    },
    PullRow {
        shows: "pulldown (highz1, strong1)", gate: PullGate::Pulldown,
        first: Level { strength: Strength::Highz, of_one: true },
        second: Some(Level { strength: Strength::Strong, of_one: true }), is_right: false,
    },
    PullRow {
        shows: "pulldown (strong0, highz0)", gate: PullGate::Pulldown,
        first: Level { strength: Strength::Strong, of_one: false },
        second: Some(Level { strength: Strength::Highz, of_one: false }), is_right: false,
    },
];

pub fn pulls() -> &'static [PullRow] {
    &ROWS
}
