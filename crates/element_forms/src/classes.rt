//! What the declaration of a net makes of it.
ghost use Rattle.std.specs.Prelude.{◌≡◌};
ghost use Rattle.element_forms.specs.Classes.{charge_level, net_class, type_kind};

use flat_net::NetKind;
use module_scope::NetKind as DeclaredKind;
use net_islands::NetClass;
use v_tree::{Charge, NetType};

/// The kind of a net of a type.
fn type_kind(net_type: NetType) -> NetKind
    ensures { result ≡ type_kind net_type }
{
    match net_type {
        NetType::Wire | NetType::Tri => NetKind::Wire,
        NetType::Wand | NetType::Triand => NetKind::And,
        NetType::Wor | NetType::Trior => NetKind::Or,
        NetType::Tri0 => NetKind::Tri0,
        NetType::Tri1 => NetKind::Tri1,
        NetType::Supply0 => NetKind::Supply0,
        NetType::Supply1 => NetKind::Supply1,
    }
}

/// The level of a charge.
fn charge_level(charge: Charge) -> u8
    ensures { result ≡ charge_level charge }
{
    match charge {
        Charge::Small => 1,
        Charge::Medium => 2,
        Charge::Large => 4,
    }
}

/// The kind and the charge of a net of a declared kind (IEEE 1364-2005, 4.6 and 4.4.1).
pub fn net_class(kind: DeclaredKind) -> NetClass
    ensures { result ≡ net_class kind }
{
    match kind {
        DeclaredKind::Typed(net_type) => NetClass {
            kind: type_kind(net_type),
            charge: 0,
        },
        DeclaredKind::Trireg(charge) => NetClass {
            kind: NetKind::Trireg,
            charge: charge_level(charge),
        },
    }
}
