//! The one net that a name has in a module.
ghost use Rattle.std.specs.Prelude.{◌≡◌, map, IfOk};
ghost use Rattle.module_scope.specs.Nets.{default_kind, typed_kind, declared_kind, implicit_net};
ghost use Rattle.module_scope.specs.Summaries.{summary_net};

use crate::roles::NetKind;
use crate::summaries::Summary;
use std::alloc::{AllocError, Global};
use v_tree::{Charge, Direction, ImplicitNetType, NetType, RangeBounds};

/// A net of a module: its direction where it is a port, its kind, its range where it is a vector,
/// and the index of the module's item that has its delay, where it has one.
#[derive(Clone, Copy, Debug, PartialEq, Eq)]
pub struct ScopeNet {
    pub direction: Option<Direction>,
    pub kind: NetKind,
    pub range: Option<RangeBounds>,
    pub delay: Option<usize>,
}

/// The kind of implicit nets, and of ports without a net type. An implicit trireg has a medium
/// charge, and where there are no implicit nets such a port is a wire (IEEE 1364-2005, 19.2).
fn default_kind(default: Option<ImplicitNetType>) -> NetKind
    ensures { result ≡ default_kind default }
{
    match default {
        None | Some(ImplicitNetType::Wire) => NetKind::Typed(NetType::Wire),
        Some(ImplicitNetType::Tri) => NetKind::Typed(NetType::Tri),
        Some(ImplicitNetType::Tri0) => NetKind::Typed(NetType::Tri0),
        Some(ImplicitNetType::Tri1) => NetKind::Typed(NetType::Tri1),
        Some(ImplicitNetType::Wand) => NetKind::Typed(NetType::Wand),
        Some(ImplicitNetType::Triand) => NetKind::Typed(NetType::Triand),
        Some(ImplicitNetType::Wor) => NetKind::Typed(NetType::Wor),
        Some(ImplicitNetType::Trior) => NetKind::Typed(NetType::Trior),
        Some(ImplicitNetType::Trireg) => NetKind::Trireg(Charge::Medium),
    }
}

/// The type that a port's direction gives, else the default.
fn typed_kind(default: Option<ImplicitNetType>, net_type: Option<NetType>) -> NetKind
    ensures { result ≡ typed_kind default net_type }
{
    match net_type {
        Some(net_type) => NetKind::Typed(net_type),
        None => default_kind(default),
    }
}

/// The kind that a declaration of the net gives, else the type of its direction, else the default.
fn declared_kind(
    default: Option<ImplicitNetType>,
    net_kind: Option<NetKind>,
    port_type: Option<NetType>,
) -> NetKind
    ensures { result ≡ declared_kind default net_kind port_type }
{
    net_kind.unwrap_or(typed_kind(default, port_type))
}

/// A net that isn't declared.
fn implicit_net(default: Option<ImplicitNetType>) -> ScopeNet
    ensures { result ≡ implicit_net default }
{
    ScopeNet {
        direction: None,
        kind: default_kind(default),
        range: None,
        delay: None,
    }
}

/// The net of a name, by the summary of its roles.
fn net_of(default: Option<ImplicitNetType>, summary: &Summary) -> Option<ScopeNet>
    ensures { result ≡ summary_net default summary.now }
{
    if summary.is_declared {
        Some(ScopeNet {
            direction: summary.direction,
            kind: declared_kind(default, summary.net_kind, summary.port_type),
            range: summary.range,
            delay: summary.delay,
        })
    } else if default.is_some() && summary.makes_net {
        Some(implicit_net(default))
    } else {
        None
    }
}

/// The net of each name.
pub fn nets_of(
    alloc: Global,
    default: Option<ImplicitNetType>,
    summaries: &[Summary],
) -> Result<Vec<Option<ScopeNet>>, AllocError>
    ensures { IfOk result (λ nets. nets.items ≡ map (summary_net default) summaries.now) }
{
    summaries
        .iter()
        .map(|summary| net_of(default, summary))
        .collect(alloc)
}
