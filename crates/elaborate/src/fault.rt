//! Why a netlist text has no flat netlist.
ghost use Rattle.std.specs.Prelude.{◌≡◌};
ghost use Rattle.elaborate.specs.declared.fault.NetFault.TheVariants.{Memory};
ghost use Rattle.elaborate.specs.Refusals.{rule_fault, wired_fault};

use netlist_meaning::NetlistLimit;
use netlist_scopes::BrokenRule;
use std::alloc::{AllocError, AllocFailed};
use v_tree::Location;

/// The number of the rule that no terminal of a bidirectional switch is a wired net.
const WIRED_RULE: u8 = 15;

/// Why a netlist text isn't elaborated.
#[derive(Clone, Copy, Debug, PartialEq, Eq)]
pub enum NetFault {
    /// A rule is broken: its number from 1 to 20, and the line of its first place, counted from 1.
    Rule(u8, u32),
    /// A limit is passed.
    Limit(NetlistLimit),
    /// There is no memory for the netlist.
    Memory,
}

impl From<AllocError> for NetFault {
    ghost from_gives = { λ _ e. e ≡ Memory };

    fn from(_e: AllocError) -> NetFault {
        NetFault::Memory
    }
}

impl<T: Drop> From<AllocFailed<T>> for NetFault {
    ghost from_gives = { λ _ e. e ≡ Memory };

    fn from(_e: AllocFailed<T>) -> NetFault {
        NetFault::Memory
    }
}

/// The refusal of a broken rule.
pub fn rule_fault(broken: BrokenRule) -> NetFault
    ensures { result ≡ rule_fault broken }
{
    NetFault::Rule(broken.rule.number(), broken.line)
}

/// The refusal of a wired net at a terminal of a bidirectional switch.
pub fn wired_fault(place: Location) -> NetFault
    ensures { result ≡ wired_fault place }
{
    NetFault::Rule(WIRED_RULE, place.line)
}
