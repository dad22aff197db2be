//! What a mention of a name says of it.
ghost use Rattle.std.specs.Prelude.{◌≡◌};
ghost use Rattle.module_scope.specs.Roles.{is_header, is_port, is_net, is_instance, declares_net, is_declaration, is_value, takes_implicit, makes_net, range_of, direction_of, type_of, kind_of, delay_of, more, is_zero, is_one, is_several};

use v_tree::{Charge, Direction, NetType, RangeBounds, Select};

/// The type of a net, and the charge where it is a trireg (IEEE 1364-2005, 4.6 and 4.4.1).
#[derive(Clone, Copy, Debug, PartialEq, Eq)]
pub enum NetKind {
    Typed(NetType),
    Trireg(Charge),
}

/// A declaration of a port's direction (IEEE 1364-2005, 12.3.3).
#[derive(Clone, Copy, Debug, PartialEq, Eq)]
pub struct PortRole {
    pub direction: Direction,
    pub net_type: Option<NetType>,
    pub range: Option<RangeBounds>,
}

/// A declaration of a net. `delay` is the index of the module's item that has the delay of the net,
/// where it has one: a delay before names that are assigned is that of the assignments.
#[derive(Clone, Copy, Debug, PartialEq, Eq)]
pub struct NetRole {
    pub kind: NetKind,
    pub range: Option<RangeBounds>,
    pub delay: Option<usize>,
}

/// Where a use of a name stands: in a terminal of a gate, in a connection of an instance, in the
/// target of an assignment or in its right side.
#[derive(Clone, Copy, Debug, PartialEq, Eq)]
pub enum Side {
    Terminal,
    Connection,
    Target,
    Value,
}

/// What a mention says of its name.
#[derive(Clone, Copy, Debug, PartialEq, Eq)]
pub enum Role {
    /// It stands in the header.
    Header,
    /// It is a port of this direction.
    Port(PortRole),
    /// It is this net.
    Net(NetRole),
    /// It is a gate or an instance.
    Instance,
    /// It is used, with its select where it has one.
    Use(Side, Option<Select>),
}

/// Whether none, one or several of some roles are of a kind.
#[derive(Clone, Copy, Debug, PartialEq, Eq)]
pub enum Count {
    Zero,
    One,
    Several,
}

impl Count {
    /// One more.
    pub fn more(self) -> Count
        ensures { result ≡ more self }
    {
        match self {
            Count::Zero => Count::One,
            Count::One | Count::Several => Count::Several,
        }
    }

    pub fn is_zero(self) -> bool
        ensures { result ≡ is_zero self }
    {
        matches!(self, Count::Zero)
    }

    pub fn is_one(self) -> bool
        ensures { result ≡ is_one self }
    {
        matches!(self, Count::One)
    }

    pub fn is_several(self) -> bool
        ensures { result ≡ is_several self }
    {
        matches!(self, Count::Several)
    }
}

impl Side {
    /// Whether it is the right side of an assignment.
    pub fn is_value(self) -> bool
        ensures { result ≡ is_value self }
    {
        matches!(self, Side::Value)
    }

    /// Whether a name that isn't declared is an implicit net there (IEEE 1364-2005, 4.5).
    pub fn takes_implicit(self) -> bool
        ensures { result ≡ takes_implicit self }
    {
        !self.is_value()
    }
}

impl Role {
    /// Whether it is an entry of the header.
    pub fn is_header(self) -> bool
        ensures { result ≡ is_header self }
    {
        matches!(self, Role::Header)
    }

    /// Whether it declares a direction.
    pub fn is_port(self) -> bool
        ensures { result ≡ is_port self }
    {
        matches!(self, Role::Port(_))
    }

    /// Whether it declares a net.
    pub fn is_net(self) -> bool
        ensures { result ≡ is_net self }
    {
        matches!(self, Role::Net(_))
    }

    /// Whether it is the name of a gate or of an instance.
    pub fn is_instance(self) -> bool
        ensures { result ≡ is_instance self }
    {
        matches!(self, Role::Instance)
    }

    /// Whether it declares a direction or a net.
    pub fn declares_net(self) -> bool
        ensures { result ≡ declares_net self }
    {
        self.is_port() || self.is_net()
    }

    /// Whether it declares a direction, a net or an instance.
    pub fn is_declaration(self) -> bool
        ensures { result ≡ is_declaration self }
    {
        self.declares_net() || self.is_instance()
    }

    /// Whether it makes an implicit net where none is declared.
    pub fn makes_net(self) -> bool
        ensures { result ≡ makes_net self }
    {
        match self {
            Role::Use(side, None) => side.takes_implicit(),
            _ => false,
        }
    }

    /// The range that a declaration gives.
    pub fn range(self) -> Option<RangeBounds>
        ensures { result ≡ range_of self }
    {
        match self {
            Role::Port(port) => port.range,
            Role::Net(net) => net.range,
            _ => None,
        }
    }

    /// The direction, where it is declared.
    pub fn direction(self) -> Option<Direction>
        ensures { result ≡ direction_of self }
    {
        match self {
            Role::Port(port) => Some(port.direction),
            _ => None,
        }
    }

    /// The net type that is declared with a direction.
    pub fn port_type(self) -> Option<NetType>
        ensures { result ≡ type_of self }
    {
        match self {
            Role::Port(port) => port.net_type,
            _ => None,
        }
    }

    /// The kind of a net that is declared.
    pub fn net_kind(self) -> Option<NetKind>
        ensures { result ≡ kind_of self }
    {
        match self {
            Role::Net(net) => Some(net.kind),
            _ => None,
        }
    }

    /// The index of the item that has the delay of a net that is declared.
    pub fn delay(self) -> Option<usize>
        ensures { result ≡ delay_of self }
    {
        match self {
            Role::Net(net) => net.delay,
            _ => None,
        }
    }
}
