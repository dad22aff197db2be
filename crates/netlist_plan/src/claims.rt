//! What declarations say of nets.
use delay_rule::Delays;
use net_islands::NetClass;

/// What a declaration says of a net: its kind and charge, and its delays where it has some.
#[derive(Clone, Copy, Debug)]
pub struct NetClaim {
    pub class: NetClass,
    pub delays: Option<Delays>,
}
