ghost use Rattle.std.specs.Prelude.{◌≡◌, ◌<◌, length, Some, slice_get, slice_set};

use crate::states::NetState;
use std::marker::Model;

/// The states of the nets of an island. Contracts see the list of states.
#[derive(Debug, Drop)]
pub struct NetStateList {
    states: Vec<NetState>,
}

impl Model for NetStateList {
    ghost use Rattle.std.specs.Prelude.{List};
    ghost use Rattle.cell_step.specs.declared.states.NetState.{NetState};

    ghost Value = { List NetState };

    ghost view = { λ l. l.states.items };
}

impl NetStateList {
    /// The states of a vector, which is kept.
    pub fn from_vec(states: Vec<NetState>) -> NetStateList
        ensures { result ≡ states.items }
    {
        NetStateList { states }
    }

    /// The vector that holds the states.
    pub fn into_vec(self) -> Vec<NetState>
        ensures { result.items ≡ self }
    {
        self.states
    }

    /// The states in their order.
    pub fn as_slice(&self) -> &[NetState]
        ensures { result.now ≡ self.now }
    {
        self.states.as_slice()
    }

    /// How many states there are.
    pub fn len(&self) -> usize
        ensures { result ≡ length self.now }
    {
        self.states.len()
    }

    /// The state at a place.
    pub fn at(&self, place: usize) -> NetState
        requires { place < length self.now }
        ensures { slice_get self.now place ≡ Some result }
    {
        self.states[place]
    }

    /// Puts a state to a place.
    pub fn set(&mut self, place: usize, state: NetState)
        requires { place < length self.old }
        ensures { self.new ≡ slice_set self.old place state }
    {
        self.states[place] = state;
    }
}
