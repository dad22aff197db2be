//! Netlists as rows, and the times of their runs with what is seen then.
use cell_step::PassEnd;
use flat_net::{ElementKind, NetKind};
use udp_table::Sym;

/// A net that is an island by itself: its type, its charge level, and its delays in ticks.
pub struct NetRow {
    pub kind: NetKind,
    pub charge: u8,
    pub delays: &'static [u32],
}

/// An element with one output and the strengths 6: its kind, its delays in ticks, and the nets of
/// its pins.
pub struct ElementRow {
    pub kind: ElementKind,
    pub delays: &'static [u32],
    pub out: u32,
    pub ins: &'static [u32],
}

/// A primitive of two inputs that starts as 0, by the symbols of its rows: of the inputs and the
/// output. The state is any.
pub struct TableRow {
    pub rows: &'static [(Sym, Sym, Sym)],
}

/// A time: its tick, the bounds of the inputs in force, the bounds of the signals that are seen at
/// the outputs after each pass, how the last pass ends (more passes are needed after those before
/// it), and the next time for which something is pending.
pub struct TimeRow {
    pub tick: u64,
    pub inputs: &'static [(i8, i8)],
    pub passes: &'static [&'static [(i8, i8)]],
    pub end: PassEnd,
    pub next: Option<u64>,
}

/// A run: its netlist, the nets of its inputs and outputs, the limit of passes, and its times.
pub struct RunRow {
    pub nets: &'static [NetRow],
    pub elements: &'static [ElementRow],
    pub tables: &'static [TableRow],
    pub inputs: &'static [u32],
    pub outputs: &'static [u32],
    pub limit: u32,
    pub times: &'static [TimeRow],
}

pub const WIRE: NetRow = NetRow {
    kind: NetKind::Wire,
    charge: 0,
    delays: &[],
};

pub const Z: (i8, i8) = (0, 0);

pub const STX: (i8, i8) = (-6, 6);

pub const ST0: (i8, i8) = (-6, -6);

pub const ST1: (i8, i8) = (6, 6);

pub const LA0: (i8, i8) = (-4, -4);

pub const LA1: (i8, i8) = (4, 4);

pub const LAX: (i8, i8) = (-4, 4);
