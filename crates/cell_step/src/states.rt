use crate::lists::NetStateList;
use delay_rule::Pending;
use level_range::{Conduct, Logic, Range};

/// The timer of a trireg's charge: its decay has not begun, takes effect at a tick, or has taken
/// effect.
#[derive(Clone, Copy, Debug, PartialEq, Eq)]
pub enum Timer {
    Idle,
    Running(u64),
    Ended,
}

/// The state of an element.
///
/// `out` is the present output, and `due` the change of it that is to come; of a bidirectional
/// switch `on` and `switch_due` are what it conducts and the change of that. `state` is the state of
/// a sequential primitive, and `seen` has the remembered values of its inputs in port order, as many
/// of the ten as it has inputs.
#[derive(Clone, Copy, Debug, PartialEq, Eq)]
pub struct ElementState {
    pub out: Range,
    pub on: Conduct,
    pub due: Option<Pending<Range>>,
    pub switch_due: Option<Pending<Conduct>>,
    pub state: Logic,
    pub seen: [Logic; 10],
}

/// The state of a net in its island: the signal to which it settled, the signal that elements see,
/// the change of the seen signal that is to come, and the charge and its timer. A net that is no
/// trireg has the charge z and an idle timer.
#[derive(Clone, Copy, Debug, PartialEq, Eq)]
pub struct NetState {
    pub settled: Range,
    pub seen: Range,
    pub due: Option<Pending<Range>>,
    pub charge: Range,
    pub timer: Timer,
}

/// The state of an island: a state for each of its nets, in their order.
#[derive(Debug, Drop)]
pub struct IslandState {
    pub nets: NetStateList,
}

/// The state of a cell.
#[derive(Debug, Drop)]
pub enum CellState {
    Element(ElementState),
    Island(IslandState),
}

/// What a pass leaves: nothing is due at the present time, more passes are needed, or something is
/// still due after as many passes as may be made.
#[derive(Clone, Copy, Debug, PartialEq, Eq)]
pub enum PassEnd {
    Quiet,
    More,
    Oscillates,
}
